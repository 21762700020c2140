// The listing program: a case file from standard input, its listing or one refusal to standard output.
#![tactic(auto)]

use printing::Console;
use theory::FILE;

fn main(rt: HostRuntime) {
    let console = Console::of(&rt);
    let mut input = rt.stdin();
    let mut bytes = [0u8; FILE + 1];
    let got = printing::read_full(&mut input, &mut bytes);
    if got < bytes.len() && !printing::at_end(&mut input) {
        return console.complain(b"list: the input could not be read to its end\n");
    }
    let mut text = [0u8; listing::LONGEST];
    let answer = listing::printed(&bytes[..got], &mut text);
    console.written(answer, &text);
}
