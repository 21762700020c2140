// The rewriting program: a case file from standard input, what it holds as a case file to standard output; or one refusal to standard error.
#![tactic(auto)]

use printing::Console;
use replies::Reply;
use theory::FILE;

// The line of a refusal and of the record being read, on standard error.
fn refused(console: Console, reply: Reply, at: u32) {
    let mut line = [0u8; lines::LONGEST];
    if let Ok(n) = lines::refusal(reply, at, &mut line)
        && let Some(line) = line.get(..n)
    {
        return console.complain(line);
    }
    console.complain(b"there is no room for the text\n");
}

fn main(rt: HostRuntime) {
    let console = Console::of(&rt);
    let mut input = rt.stdin();
    let mut bytes = [0u8; FILE + 1];
    let got = printing::read_full(&mut input, &mut bytes);
    if got < bytes.len() && !printing::at_end(&mut input) {
        return console.complain(b"rewrite: the input could not be read to its end\n");
    }
    if FILE < got {
        return refused(console, Reply::Long, 0);
    }
    let loaded = casefile::load(&bytes[..got]);
    let Reply::Done = loaded.reply else {
        return refused(console, loaded.reply, loaded.record);
    };
    let mut file = [0u8; writing::LONGEST];
    let out = writing::write(loaded.store, &mut file);
    console.written(out.answer, &file);
}
