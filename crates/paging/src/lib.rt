// Numbered pages on a card, all or nothing at a sync: shadow paging under one root sector. The definitions are in specs/; here are its theorems, each the contract of a function.
#![tactic(auto)]

ghost use Rattle.paging.specs.Promise.{StoreKept, PagesKept, UpSoon, CallsPriced, PlansPriced, LeftMeans, Roomy, LeavesForeign, ForeignStays, AlwaysKnown};

use device::theorems::Answering;

// The store keeps to its judge, over any calls and power cuts, and touches nothing but the device.
pub fn store_kept() -> u8
    ensures { StoreKept }
{
    0
}

// So it does with the four plain calls.
pub fn pages_kept() -> u8
    ensures { PagesKept }
{
    0
}

// It is up soon, on any device, and tells how many sectors it has read.
pub fn up_soon() -> u8
    ensures { UpSoon }
{
    0
}

// No call reads more than its price.
pub fn calls_priced() -> u8
    ensures { CallsPriced }
{
    0
}

// The prices of a plan's calls add up.
pub fn plans_priced<A: Answering>() -> u8
    ensures { PlansPriced A.Answering.Out }
{
    0
}

// What the number of puts that are left means, and how much room there is.
pub fn left_means() -> u8
    ensures { LeftMeans × Roomy }
{
    0
}

// A card of another form is left as it is.
pub fn leaves_foreign() -> u8
    ensures { LeavesForeign }
{
    0
}

// And any calls of it leave it so.
pub fn foreign_stays<A: Answering>() -> u8
    ensures { ForeignStays A.Answering.Out }
{
    0
}

// From a blank card on the form is always known.
pub fn always_known() -> u8
    ensures { AlwaysKnown }
{
    0
}
