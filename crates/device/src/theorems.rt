// The theorems on programs and layers: each function's contract is one of them. A contract's fact is of Type 0, so what holds of all machines, judges and types is said of those that a type
// parameter's ghost members name.
ghost use Rattle.device.specs.Reads.{ReadsThen};
ghost use Rattle.device.specs.Plays.{Flowing, FlowPlays, HonestRuns, HonestPlays, Showing, ShownRuns};
ghost use Rattle.device.specs.Towers.{Tower, Composes, StaysWithin, ReadsSum, Floors, PlaysDown, Traces};
ghost use Rattle.device.specs.Priced.{PricedTower, PricedKeeps, PricesAdd};

// Any part below, any layer on it, and a judge for each.
pub trait Layered {
    ghost tower: { Tower };
}

// Any type that a program answers with.
pub trait Answering {
    ghost Out: { Type 0 };
}

// Any store on a device, and any layer above it.
pub trait Floored {
    ghost floors: { Floors };
}

// Any device that shows itself as an honest one.
pub trait Shows {
    ghost showing: { Showing };
}

// A layer that is right above a judge is right above every machine that keeps to it.
pub fn layers_compose<L: Layered>() -> u8
    ensures { Composes L.Layered.tower }
{
    0
}

// A layer on a machine that touches nothing but the device touches nothing but the device.
pub fn within_over<L: Layered>() -> u8
    ensures { StaysWithin L.Layered.tower }
{
    0
}

// One program after another reads what both read.
pub fn reads_then<A: Answering, B: Answering>() -> u8
    ensures { ReadsThen A.Answering.Out B.Answering.Out }
{
    0
}

// What a layer on a machine reads is at most what the calls cost that it makes, in some way that it may go above the judge.
pub fn reads_sum<L: Layered>() -> u8
    ensures { ReadsSum L.Layered.tower }
{
    0
}

// Following a plan over a store plays on the device what the plan does through the machine, and so does a layer.
pub fn plays_down<F: Floored>() -> u8
    ensures { PlaysDown F.Floored.floors }
{
    0
}

// What is played on the honest device is what the program runs to, and the other way round.
pub fn honest_runs<A: Answering>() -> u8
    ensures { HonestRuns A.Answering.Out × HonestPlays A.Answering.Out }
{
    0
}

// And so on any device that shows itself as an honest one.
pub fn shown_runs<S: Shows, A: Answering>() -> u8
    ensures { ShownRuns S.Shows.showing A.Answering.Out }
{
    0
}

// Calls that are played on the honest device are a trace of the machine.
pub fn plays_trace<L: Layered>() -> u8
    ensures { Traces L.Layered.tower }
{
    0
}

// Any flow of code, and what runs it.
pub trait Flows {
    ghost flowing: { Flowing };
}

// Code that runs a flow plays on the device the program that the flow is; over another part, it follows the plan.
pub fn flow_plays<F: Flows>() -> u8
    ensures { FlowPlays F.Flows.flowing }
{
    0
}

// Any machine with its judge and its prices, and any layer with its own.
pub trait PricedLayers {
    ghost tower: { PricedTower };
}

// What is priced keeps to its judge, and touches nothing but the device.
pub fn priced_keeps<L: PricedLayers>() -> u8
    ensures { PricedKeeps L.PricedLayers.tower }
{
    0
}

// A layer on a machine that is priced is priced, and prices add up.
pub fn prices_add<L: PricedLayers>() -> u8
    ensures { PricesAdd L.PricedLayers.tower }
{
    0
}
