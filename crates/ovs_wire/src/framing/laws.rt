//! Laws on the frames of a stream, and on a framer that is fed it.
ghost use Rattle.std.specs.Prelude.{◌≡◌, ◌<◌, ◌≤◌, ◌+◌, ◌⊎◌, ◌++◌, ◌∷◌, ℕ, List, [], All, length, take};
ghost use Rattle.std.specs.List.{concat};
ghost use Rattle.ovs_wire.specs.declared.error.FrameError.{FrameError};
ghost use Rattle.ovs_wire.specs.declared.error.FrameError.TheVariants.{TooDeep, TooLong};
ghost use Rattle.ovs_wire.specs.Limits.{most_nesting};
ghost use Rattle.ovs_wire.specs.Depth.{depth, openers, closers};
ghost use Rattle.ovs_wire.specs.Frames.{Ending, Rest, Fault, IsBalanced, IsBegun, IsObject, IsTooLarge, AreFrames};
ghost use Rattle.ovs_wire.specs.Texts.{Remain};
ghost use Rattle.ovs_wire.specs.Framing.{Framing, IsNew, Feeds, Takes, Follows, Call, Leads, fed, taken};

/// Whatever the limit of a message's bytes: every stream has frames, messages and an ending, and no others. It doesn't matter
/// where it is cut: the messages of its first part come first, and then those of what the first part leaves with the second
/// part; and what comes after a fault changes nothing. Balanced bytes above the limits are one fault: `TooDeep` where a place
/// up to the first byte too many is too deep, else `TooLong`.
pub fn frame_laws()
    ensures exist { (most : ℕ) (stream : List ℕ) → (found : List (List ℕ)) × (ending : Ending) × AreFrames most stream found ending }
    ensures unique { (most : ℕ) (stream : List ℕ) (found others : List (List ℕ)) (ending other : Ending)
        → AreFrames most stream found ending → AreFrames most stream others other → (found ≡ others) × (ending ≡ other) }
    ensures cut { (most : ℕ) (x y : List ℕ) (first second : List (List ℕ)) (left : List ℕ) (ending : Ending)
        → AreFrames most x first (Rest left) → AreFrames most (left ++ y) second ending
        → AreFrames most (x ++ y) (first ++ second) ending }
    ensures fault { (most : ℕ) (x y : List ℕ) (found : List (List ℕ)) (fault : FrameError)
        → AreFrames most x found (Fault fault) → AreFrames most (x ++ y) found (Fault fault) }
    ensures too_deep { (most : ℕ) (o : List ℕ) (k : ℕ) → IsBalanced o → k ≤ most + 1 → most_nesting < depth (take k o)
        → AreFrames most o [] (Fault TooDeep) }
    ensures too_long { (most : ℕ) (o : List ℕ) → IsBalanced o → most < length o
        → ((k : ℕ) → k ≤ most + 1 → depth (take k o) ≤ most_nesting) → AreFrames most o [] (Fault TooLong) }
{}

/// Two limits, of which the second is no less, tell the same of a stream that the first finds no message too long in: the same
/// messages and the same ending. Where the first does, its messages are the first of those that the second finds.
pub fn limit_laws()
    ensures same { (most other : ℕ) (stream : List ℕ) (found : List (List ℕ)) (ending : Ending) → most ≤ other
        → AreFrames most stream found ending → (ending ≡ Fault TooLong → ⊥) → AreFrames other stream found ending }
    ensures first { (most other : ℕ) (stream : List ℕ) (found others : List (List ℕ)) (ending later : Ending) → most ≤ other
        → AreFrames most stream found ending → AreFrames other stream others later
        → (more : List (List ℕ)) × (others ≡ found ++ more) }
    ensures framers { (most other : ℕ) (first second : List Call) (new now another later : Framing) → most ≤ other
        → IsNew most new → Leads first new now → IsNew other another → Leads second another later → fed first ≡ fed second
        → (now.ending ≡ Fault TooLong → ⊥)
        → (taken first ++ now.waiting ≡ taken second ++ later.waiting) × (now.ending ≡ later.ending) }
{}

/// A framer follows its stream: what was taken out, what waits and how it ends are the frames of all that came,
/// however it was cut into pieces, by its own limit, which stays. A new one follows the empty stream. While messages come one
/// after another in pieces, those that were taken or wait are the first of them; and once all have come they are all, and no
/// rest is left.
pub fn framer_laws()
    ensures new { (most : ℕ) (new : Framing) → IsNew most new → Follows most [] [] new }
    ensures feeds { (most : ℕ) (stream piece : List ℕ) (before : List (List ℕ)) (old new : Framing)
        → Follows most stream before old → Feeds old piece new → Follows most (stream ++ piece) before new }
    ensures takes { (most : ℕ) (stream message : List ℕ) (before : List (List ℕ)) (old new : Framing)
        → Follows most stream before old → Takes old message new → Follows most stream (before ++ message ∷ []) new }
    ensures calls { (most : ℕ) (calls : List Call) (new now : Framing) → IsNew most new → Leads calls new now
        → Follows most (fed calls) (taken calls) now }
    ensures pieces { (most : ℕ) (texts : List (List ℕ)) (calls : List Call) (later : List ℕ) (new now : Framing)
        → All (IsObject most) texts → IsNew most new → Leads calls new now → fed calls ++ later ≡ concat texts
        → (others : List (List ℕ)) × (texts ≡ (taken calls ++ now.waiting) ++ others)
        × (later ≡ [] → (others ≡ []) × (now.ending ≡ Rest [])) }
{}

/// In a balanced text and in the beginning of one, the depth at a place is the number of brackets that open before it
/// outside strings, less the number of those that close. A text within the limits is a message, and messages one after
/// another are their own frames. Balanced texts one after another, each within the limits or too large, may be cut
/// anywhere: the messages of what has come are the first of the texts, and what is still to come makes the others whole.
/// Where what has come has a fault, the next text is too large.
pub fn balanced_text_laws()
    ensures depth { (o : List ℕ) (k : ℕ) → IsBalanced o
        → closers (take k o) + depth (take k o) ≡ openers (take k o) }
    ensures begun_depth { (r : List ℕ) (k : ℕ) → IsBegun r
        → closers (take k r) + depth (take k r) ≡ openers (take k r) }
    ensures frames { (most : ℕ) (found : List (List ℕ)) → All (IsObject most) found → AreFrames most (concat found) found (Rest []) }
    ensures sizes { (most : ℕ) (text : List ℕ) → IsBalanced text → IsObject most text ⊎ IsTooLarge most text }
    ensures cut { (most : ℕ) (texts : List (List ℕ)) (come coming : List ℕ) (found : List (List ℕ)) (ending : Ending)
        → All IsBalanced texts → come ++ coming ≡ concat texts → AreFrames most come found ending
        → All (IsObject most) found
        × ((left : List (List ℕ)) × (found ++ left ≡ texts) × Remain most ending coming left) }
{}
