// A page's 8 sectors, read, written and compared. That a sector's number is at most 2^40 stands in each contract: a type for it would be no plainer, since only these functions ask for it.
ghost use Rattle.std.specs.Prelude.{◌<◌, ◌≤◌};
ghost use Rattle.device.specs.Flow.{Runs};
ghost use Rattle.paging.specs.Store.{read_page, write_page, same_pages};
ghost use Rattle.pages.specs.Writing.{root_written};

use crate::geometry::PAGE_SECTORS;
use device::Device;

pub(crate) fn read_page<D: Device>(device: &mut D, from: u64, page: &mut [u8; 4096])
    requires { from ≤ 1099511627776 }
    ensures { Runs D.Device.steps (read_page from) device.old device.new page.new }
{
    let mut sector = [0u8; 512];
    // By index: tried over `as_chunks_mut`, by `split_first_chunk_mut` in a `while let` and by `first_chunk_mut`; what the page then ends as no proof knows.
    for i in 0..PAGE_SECTORS as usize {
        device.read(from + i as u64, &mut sector);
        page[i * 512..(i + 1) * 512].copy_from_slice(&sector);
    }
}

pub(crate) fn write_page<D: Device>(device: &mut D, from: u64, page: &[u8; 4096])
    requires { from ≤ 1099511627776 }
    ensures { Runs D.Device.steps (write_page from page.now) device.old device.new tt }
{
    let (sectors, _) = page.as_chunks::<512>();
    for (i, sector) in sectors.iter().enumerate() {
        device.write(from + i as u64, sector);
    }
}

// Whether two pages hold the same; it ends where they differ.
pub(crate) fn same_pages<D: Device>(device: &mut D, a: u64, b: u64) -> bool
    requires { (a ≤ 1099511627776) × (b ≤ 1099511627776) }
    ensures { Runs D.Device.steps (same_pages a b) device.old device.new result }
{
    let mut x = [0u8; 512];
    let mut y = [0u8; 512];
    // A loop: tried as `all`; of a device that its closure borrows a proof knows nothing afterwards.
    for i in 0..PAGE_SECTORS {
        device.read(a + i, &mut x);
        device.read(b + i, &mut y);
        if x != y {
            return false;
        }
    }
    true
}

// The root, for good.
pub(crate) fn write_root<D: Device>(device: &mut D, root: &[u8; 512])
    ensures { Runs D.Device.steps (root_written root.now) device.old device.new tt }
{
    device.write(0, root);
    device.sync();
}
