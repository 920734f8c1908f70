// Coming up together with the store below.
ghost use Rattle.std.specs.Prelude.{◌≡◌};
ghost use Rattle.std.specs.Fn.{FnOnceReturnsAtMut};
ghost use Rattle.cache.specs.Opening.{ComesUp, store_below};
ghost use Rattle.cache.specs.Serving.{cache_of};

use crate::cached::Cached;
use device::Device;
use pages::store::{OpenError, Store};

impl<'f, 's, 'a, D: Device> Cached<'f, &'s mut Store<'a, D>> {
    // Brings the store up, with nothing in a frame. How many sectors were read is the result; where it is refused, nothing was asked of the device.
    pub fn open(&mut self, sectors: u64) -> Result<u64, OpenError>
        ensures { ComesUp D.Device.steps sectors self.old self.new result }
    {
        let reads = self.pages.open(sectors)?;
        self.frames.reset(sectors.div_ceil(8));
        Ok(reads)
    }

    // What f does with the device, for who has lent it. The store and the frames stay as they are; who writes to the device has to open the cache again.
    pub fn with_device<R, F: FnOnce(&mut D) -> R>(&mut self, f: F) -> R
        requires { F.IsAlwaysCallable f }
        ensures called { FnOnceReturnsAtMut F.FnOnce f (store_below self.old).device result (store_below self.new).device }
        ensures label { (store_below self.new).label ≡ (store_below self.old).label }
        ensures memory { (store_below self.new).memory ≡ (store_below self.old).memory }
        ensures frames { cache_of self.new ≡ cache_of self.old }
    {
        self.pages.with_device(f)
    }
}
