// What other crates call with a `requires`: the refusals of recovery without a table, and one page decided after them.
ghost use Rattle.std.specs.Prelude.{◌≡◌, ◌<◌, OnOk};
ghost use Rattle.wal.specs.Walk.{entries};
ghost use Rattle.page.specs.Layout.{pages_in};
ghost use Rattle.refusals.specs.Verdict.{told};
ghost use Rattle.rules.specs.Lent.{lent};
ghost use Rattle.rules.specs.Mend.{top_of};
ghost use Rattle.rules.specs.Order.{never_full};
ghost use Rattle.rules.specs.Recover.{recover_verdict};
ghost use Rattle.images.specs.Page.{PageCells};
ghost use Rattle.recovery.specs.Ready.{Ready};

use cells::Scratch;
use crc32c::inner::Tables;
use decide::Changes;
use endian::Lsn;
use images::inner::top_of;
use page::PAGE_BYTES;
use refusals::Refused;

// The first refusal. Where there is none, the scratch space holds what `decide_page` asks for.
pub fn judge(
    t: &Tables,
    magic: u64,
    floor: Lsn,
    pages: &[u8],
    log: &[u8],
    s: &mut Scratch,
) -> Result<(), Refused>
    ensures value { told result ≡ recover_verdict never_full (lent magic floor.0 pages.now log.now) }
    ensures ready { OnOk result (Ready log.now pages.now s.new.starts s.new.lists s.new.fronts s.new.space) }
{
    crate::judge::judge(t, magic, floor, pages, log, None, s)?;
    Ok(())
}

// Decides page i, so that `images::Slots` says where the tuple of each of its slots stands after recovery. Gives back one more than its highest touched slot, 0 for an untouched page.
pub fn decide_page(
    log: &[u8],
    pages: &[u8],
    i: usize,
    starts: &[u32; 4097],
    lists: &[u32; 4097],
    fronts: &[u32; 4096],
    space: &[u8; 655360],
    cells: &mut [u32; 4080],
) -> usize
    requires ready { Ready log.now pages.now starts.now lists.now fronts.now space.now }
    requires i_bound { i < pages_in pages.now }
    ensures value { result ≡ top_of i (entries log.now) }
    ensures page_cells { PageCells log.now i result cells.new }
{
    let n = pages.len() / PAGE_BYTES;
    let top = top_of(starts, i);
    let changes = Changes {
        log,
        n,
        lists,
        fronts,
        space,
    };
    changes.decide(i, top, cells);
    top
}
