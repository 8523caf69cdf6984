// Laws over all lists of events, each as the contract of a function that does nothing.
ghost use Rattle.std.specs.Prelude.{◌≡◌, ◌++◌, [], List, true, Some};
ghost use Rattle.dev_model.specs.Story.{Story};
ghost use Rattle.dev_model.specs.Moments.{EachMoment};
ghost use Rattle.store_machine.specs.Crash.{attempted, Keeps};
ghost use Rattle.store_machine.specs.Machine.{Opening, at_opening, after_all};
ghost use Rattle.store_machine.specs.Calls.{Adds};
ghost use Rattle.store_machine.specs.Standing.{StoreState, Stands, StandsSince};
ghost use Rattle.dev_model.specs.Story.{DeviceState};
ghost use Rattle.store_machine.specs.declared.events.Event.{Event};

/// A law: no call adds no event, one call after another adds the events of both, and a store that stands for a list of events
/// has left at each moment since the opening what was acknowledged, with one group more at most.
pub fn events_follow_one_another()
    ensures none { (s : StoreState) → Adds s s [] }
    ensures then { (a b c : StoreState) (es fs : List Event) → Adds a b es → Adds b c fs → Adds a c (es ++ fs) }
    ensures since { (device : DeviceState) (a b : StoreState) (es fs : List Event) → StandsSince device a es → Adds a b fs → StandsSince device b (es ++ fs) }
    ensures crash { (o : Opening) (store : StoreState) (es : List Event) (s : Story) → Stands true o store es → store.device.story ≡ Some s →
        EachMoment o.clock s (Keeps store.device.pages o.table
        (attempted (after_all (at_opening o) es).logged (after_all (at_opening o) es).unfinished) store.acks) }
{}
