// Laws of hosts and layers, each the contract of a function.
ghost use Rattle.host.specs.StopLaws.{EndStopsHold};

// A layer of end stops holds the ports that a driver writes within their bounds, over every lawful host.
pub fn end_stops_hold()
    ensures { EndStopsHold }
{}
