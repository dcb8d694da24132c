// Laws of packets in flight, proved of every network: nothing runs here.
ghost use Rattle.lucid_net_spec.specs.Ways.{Network};
ghost use Rattle.lucid_net_laws.specs.Behind.{StaysBehind};
ghost use Rattle.lucid_net_laws.specs.Runs.{ComeLater};

/// The queue is that of the network whose events run whole, without the events of packets in flight (`StaysBehind`).
pub fn packets_are_behind()
    ensures { (net : Network) → StaysBehind net }
{}

/// For any number of ticks that packets take, ticks write the text that the network of whole handlers wrote that many ticks earlier
/// (`ComeLater`).
pub fn texts_come_later()
    ensures { (net : Network) → ComeLater net }
{}
