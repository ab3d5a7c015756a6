//! Laws on what a session with an upstream sends. Each is the contract of a function with nothing to do.

ghost use Rattle.std.specs.Prelude.{◌≡◌, ◌++◌, [], ℕ, List, Option, Some};
ghost use Rattle.std.specs.Io.KnownBytes.{IsAtEnd};
ghost use Rattle.ovs_links.specs.declared.link.Link.{Link};
ghost use Rattle.ovs_upstream.specs.declared.up_session.UpSession.{UpSession};
ghost use Rattle.ovs_session.specs.Moving.{Moved};
ghost use Rattle.ovs_session.specs.Serving.{SessionValue, IsDone, Runs, Said, fresh_within};
ghost use Rattle.ovs_follow.specs.UpstreamState.{UpstreamStateValue, Hears, Asks};
ghost use Rattle.ovs_follow.specs.Deriving.{AreDerived, IsFirst};
ghost use Rattle.ovs_follow.specs.Telling.{Passed, TellsFirst};

/// However many turns a session had, whoever made them, and however many bytes a message of its upstream may have: the links that it sent are the first of those that are derived from
/// its reader's bytes, and all of them where it is done and its reader at its end. Of what these bytes tell the handler the first
/// was told it, in order. And the requests that the handler gave it were said, each once and in order, but for one that may wait.
pub fn following_laws()
    ensures first { (began : UpstreamStateValue) (most limit : ℕ) (bytes : List ℕ) (unread output written : Option (List ℕ)) (now : SessionValue UpstreamStateValue) (links : List Link)
        → Moved Hears Asks limit (Some bytes) unread output written (fresh_within most began) now → AreDerived most began.up bytes links
        → IsFirst links began.sent now.state.sent }
    ensures all { (began : UpstreamStateValue) (most limit : ℕ) (bytes : List ℕ) (unread output written : Option (List ℕ)) (now : SessionValue UpstreamStateValue) (links : List Link)
        → Moved Hears Asks limit (Some bytes) unread output written (fresh_within most began) now → IsDone now → IsAtEnd unread → AreDerived most began.up bytes links
        → now.state.sent ≡ began.sent ++ links }
    ensures told { (began : UpstreamStateValue) (most limit : ℕ) (bytes : List ℕ) (unread output written : Option (List ℕ)) (now : SessionValue UpstreamStateValue)
        → began.made ≡ [] → Moved Hears Asks limit (Some bytes) unread output written (fresh_within most began) now → TellsFirst most began.up bytes now.state.made }
    ensures passed { (said : List Said) (old new : UpstreamStateValue) → Runs Hears Asks said old new → Passed old said new }
{}

/// Links are derived from each stream, however many bytes a message may have, and no others.
pub fn derived_laws()
    ensures exist { (most : ℕ) (up : UpSession) (stream : List ℕ) → (links : List Link) × AreDerived most up stream links }
    ensures once { (most : ℕ) (up : UpSession) (stream : List ℕ) (links others : List Link) → AreDerived most up stream links → AreDerived most up stream others
        → links ≡ others }
{}
