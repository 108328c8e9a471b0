// Serializing a document and composing it again: the definitions are in specs/, the proofs of what is said of them in proofs/.
// Here each theorem stands on the contract of a function that does nothing.
#![tactic(auto)]

ghost use Rattle.serial.specs.RoundTrip.{RoundTripAnchored, ComposedAlike};
ghost use Rattle.serial.specs.Theorems.{WalksStand, OneDocument};

// Every sound document has one walk, which meets exactly what paths lead to and has C + L + 1 steps.
pub fn walks_stand()
    ensures { WalksStand }
{}

// The events of a document's walk, with the anchors that serializing gives, compose to a document that is alike by paths, and to no other.
pub fn round_trip_stands()
    ensures back { RoundTripAnchored }
    ensures alike { ComposedAlike }
    ensures one { OneDocument }
{}
