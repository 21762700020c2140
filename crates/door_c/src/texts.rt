// The calls that write text into lent bytes.
ghost use Rattle.std.specs.Prelude.{◌≡◌};
ghost use Rattle.lent.specs.Lent.{fitted};
ghost use Rattle.lines.specs.Lines.{heading_of, line_of};
ghost use Rattle.listing.specs.Listing.{listed_of, listing_of};
ghost use Rattle.stagetext.specs.Stagetext.{stages_of};
ghost use Rattle.text.specs.Texts.{refusal};
ghost use Rattle.writing.specs.Writing.{write_of};
ghost use Rattle.across.specs.Across.{wrote_by};

use across::Told;
use store::Store;

// The line of n in the listing, its newline included.
#[unsafe(no_mangle)]
pub extern "C" fn door_line(store: Store, n: u32, out: &mut [u8]) -> Told
    ensures { (result ≡ wrote_by (line_of store n out.old).answer)
        × (out.new ≡ (line_of store n out.old).bytes) }
{
    door::texts::door_line(store, n, out)
}

// The first line of the listing.
#[unsafe(no_mangle)]
pub extern "C" fn door_case_line(store: Store, out: &mut [u8]) -> Told
    ensures { (result ≡ wrote_by (heading_of store out.old).answer)
        × (out.new ≡ (heading_of store out.old).bytes) }
{
    door::texts::door_case_line(store, out)
}

// The whole listing.
#[unsafe(no_mangle)]
pub extern "C" fn door_listing(store: Store, out: &mut [u8]) -> Told
    ensures { (result ≡ wrote_by (listed_of store out.old).answer)
        × (out.new ≡ (listed_of store out.old).bytes) }
{
    door::texts::door_listing(store, out)
}

// What the listing program prints of the bytes of a file.
#[unsafe(no_mangle)]
pub extern "C" fn door_printed(bytes: &[u8], out: &mut [u8]) -> Told
    ensures { (result ≡ wrote_by (fitted (listing_of bytes.now) out.old).answer)
        × (out.new ≡ (fitted (listing_of bytes.now) out.old).bytes) }
{
    door::texts::door_printed(bytes, out)
}

// The case file of what is held.
#[unsafe(no_mangle)]
pub extern "C" fn door_write(store: Store, out: &mut [u8]) -> Told
    ensures { (result ≡ wrote_by (write_of store out.old).answer)
        × (out.new ≡ (write_of store out.old).bytes) }
{
    door::texts::door_write(store, out)
}

// One line a stage: every number that followed from the set e by then.
#[unsafe(no_mangle)]
pub extern "C" fn door_stages(store: Store, e: u32, out: &mut [u8]) -> Told
    ensures { (result ≡ wrote_by (stages_of store e out.old).answer)
        × (out.new ≡ (stages_of store e out.old).bytes) }
{
    door::texts::door_stages(store, e, out)
}

// The line of a refusal, by its number, and of the record being read.
#[unsafe(no_mangle)]
pub extern "C" fn door_refusal(number: u32, record: u32, out: &mut [u8]) -> Told
    ensures { (result ≡ wrote_by (fitted (refusal number «record») out.old).answer)
        × (out.new ≡ (fitted (refusal number «record») out.old).bytes) }
{
    door::texts::door_refusal(number, record, out)
}
