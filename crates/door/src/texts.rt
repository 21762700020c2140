// The calls that write text into lent bytes.
ghost use Rattle.std.specs.Prelude.{◌≡◌};
ghost use Rattle.lent.specs.Lent.{fitted};
ghost use Rattle.lines.specs.Lines.{heading_of, line_of};
ghost use Rattle.listing.specs.Listing.{listed_of, listing_of};
ghost use Rattle.stagetext.specs.Stagetext.{stages_of};
ghost use Rattle.text.specs.Texts.{refusal};
ghost use Rattle.writing.specs.Writing.{write_of};
ghost use Rattle.across.specs.Across.{wrote_by};

use across::Told;
use store::Store;
use text::Writer;

// The line of n in the listing, its newline included.
#[unsafe(no_mangle)]
pub extern "C" fn door_line(store: Store, n: u32, out: &mut [u8]) -> Told
    ensures { (result ≡ wrote_by (line_of store n out.old).answer)
        × (out.new ≡ (line_of store n out.old).bytes) }
{
    Told::from(lines::line(store, n, out).answer)
}

// The first line of the listing.
#[unsafe(no_mangle)]
pub extern "C" fn door_case_line(store: Store, out: &mut [u8]) -> Told
    ensures { (result ≡ wrote_by (heading_of store out.old).answer)
        × (out.new ≡ (heading_of store out.old).bytes) }
{
    Told::from(lines::case_line(store, out).answer)
}

// The whole listing.
#[unsafe(no_mangle)]
pub extern "C" fn door_listing(store: Store, out: &mut [u8]) -> Told
    ensures { (result ≡ wrote_by (listed_of store out.old).answer)
        × (out.new ≡ (listed_of store out.old).bytes) }
{
    Told::from(listing::listing(store, out).answer)
}

// What the listing program prints of the bytes of a file.
#[unsafe(no_mangle)]
pub extern "C" fn door_printed(bytes: &[u8], out: &mut [u8]) -> Told
    ensures { (result ≡ wrote_by (fitted (listing_of bytes.now) out.old).answer)
        × (out.new ≡ (fitted (listing_of bytes.now) out.old).bytes) }
{
    Told::from(listing::printed(bytes, out))
}

// The case file of what is held.
#[unsafe(no_mangle)]
pub extern "C" fn door_write(store: Store, out: &mut [u8]) -> Told
    ensures { (result ≡ wrote_by (write_of store out.old).answer)
        × (out.new ≡ (write_of store out.old).bytes) }
{
    Told::from(writing::write(store, out).answer)
}

// One line a stage: every number that followed from the set e by then.
#[unsafe(no_mangle)]
pub extern "C" fn door_stages(store: Store, e: u32, out: &mut [u8]) -> Told
    ensures { (result ≡ wrote_by (stages_of store e out.old).answer)
        × (out.new ≡ (stages_of store e out.old).bytes) }
{
    Told::from(stagetext::lines(store, e, out).answer)
}

// The line of a refusal, by its number, and of the record being read.
#[unsafe(no_mangle)]
pub extern "C" fn door_refusal(number: u32, record: u32, out: &mut [u8]) -> Told
    ensures { (result ≡ wrote_by (fitted (refusal number «record») out.old).answer)
        × (out.new ≡ (fitted (refusal number «record») out.old).bytes) }
{
    let mut text = [0u8; 30];
    let mut writer = Writer::new(&mut text);
    writer.refused(number, record);
    let answer = lent::fit(writer.text(), out);
    Told::from(answer)
}
