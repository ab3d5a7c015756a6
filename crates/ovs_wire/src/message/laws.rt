//! Laws on texts and the messages that they say.
ghost use Rattle.std.specs.Prelude.{◌≡◌, ◌<◌, ◌≤◌, ◌⊎◌, ◌++◌, ◌∷◌, [], ℕ, List, length};
ghost use Rattle.std.specs.List.{concat, AllZip};
ghost use Rattle.serde_json.specs.Data.{object, Members, depth};
ghost use Rattle.serde_json.specs.Read.{max_depth};
ghost use Rattle.ovs_wire.specs.declared.error.FrameError.TheVariants.{TooDeep, TooLong};
ghost use Rattle.ovs_wire.specs.declared.message.Message.{Message};
ghost use Rattle.ovs_wire.specs.Limits.{most_nesting};
ghost use Rattle.ovs_wire.specs.Frames.{Rest, Fault, IsBalanced, IsWithinLimits, IsObject, IsPadded, IsBare, AreFrames};
ghost use Rattle.ovs_wire.specs.Framing.{Framing, IsNew, Call, Leads, fed, taken};
ghost use Rattle.ovs_wire.specs.Message.{IsText, Says, IsWritten, IsSent, ReadsBack, json};

/// A text says one message at most. What is written for a message that nests at most 127 deep is text that says this
/// message and no other. Every text of a JSON object, however it is spelled, is balanced bytes, perhaps with white space
/// around them; and where it is within the limits, whichever that of its bytes is, it is one frame of a stream.
pub fn text_laws()
    ensures one { (bytes : List ℕ) (m n : Message) → Says bytes m → Says bytes n → m ≡ n }
    ensures said { (m : Message) (bytes : List ℕ) → IsWritten m bytes → depth (json m) ≤ max_depth
        → Says bytes m × ((n : Message) → Says bytes n → n ≡ m) }
    ensures balanced { (bytes : List ℕ) (ms : Members) → IsText bytes (object ms)
        → (o : List ℕ) × IsPadded bytes o × IsBalanced o }
    ensures bare { (bytes : List ℕ) (ms : Members) → IsText bytes (object ms) → IsBare bytes → IsBalanced bytes }
    ensures frame { (most : ℕ) (bytes : List ℕ) (ms : Members) → IsText bytes (object ms) → IsWithinLimits most bytes
        → (o : List ℕ) × IsPadded bytes o × IsObject most o × AreFrames most bytes (o ∷ []) (Rest []) }
{}

/// Whatever the limit of a message's bytes: what is written is one frame within the limits. Above one of them it is this fault and nothing else, and above both
/// it is one of the two. Messages come through: where what is written for them is fed to a new framer one after another,
/// in whatever pieces, what was taken so far reads as the first messages, in order; and as all of them once all was fed
/// and none waits.
pub fn writing_laws()
    ensures frame { (most : ℕ) (m : Message) (bytes : List ℕ) → IsSent most m bytes → AreFrames most bytes (bytes ∷ []) (Rest []) }
    ensures too_deep { (most : ℕ) (m : Message) (bytes : List ℕ) → IsWritten m bytes → most_nesting < depth (json m)
        → length bytes ≤ most → AreFrames most bytes [] (Fault TooDeep) }
    ensures too_long { (most : ℕ) (m : Message) (bytes : List ℕ) → IsWritten m bytes → depth (json m) ≤ most_nesting
        → most < length bytes → AreFrames most bytes [] (Fault TooLong) }
    ensures either { (most : ℕ) (m : Message) (bytes : List ℕ) → IsWritten m bytes → most_nesting < depth (json m)
        → most < length bytes
        → AreFrames most bytes [] (Fault TooDeep) ⊎ AreFrames most bytes [] (Fault TooLong) }
    ensures through { (most : ℕ) (messages : List Message) (texts : List (List ℕ)) (calls : List Call) (later : List ℕ)
        (new now : Framing) → AllZip (IsSent most) messages texts → IsNew most new → Leads calls new now
        → fed calls ++ later ≡ concat texts
        → (read : List Message) × (left : List Message) × (messages ≡ read ++ left)
        × AllZip ReadsBack read (taken calls) × (later ≡ [] → now.waiting ≡ [] → left ≡ []) }
{}
