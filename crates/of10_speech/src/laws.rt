//! Laws of what a session says.

ghost use Rattle.std.specs.Prelude.{◌≡◌, ◌≢◌, ◌≤◌, ◌+◌, ℕ, List, [], ◌++◌, length, drop};
ghost use Rattle.of10_stream.specs.Framings.{Framing, framing};
ghost use Rattle.of10_session.specs.Progresses.{Progress};
ghost use Rattle.of10_session.specs.Sessions.{spelled};
ghost use Rattle.of10_speech.specs.declared.hearing.Hearing.{Hearing as AnyHearing};
ghost use Rattle.of10_speech.specs.declared.stops.Broken.{Broken as AnyBroken};
ghost use Rattle.of10_speech.specs.declared.stops.Broken.TheVariants.{Full};
ghost use Rattle.of10_speech.specs.declared.stops.SpeechStop.TheVariants.{Goes, Waits};
ghost use Rattle.of10_speech.specs.Speeches.{Told, Further, Speech, opening, IsSpoken, HasOneAnswer, IsBeginning};
ghost use Rattle.of10_speech.specs.Hearings.{Awaits, Breaks, Following, HasAsked, Hears, IsAnswer};

/// A law, whatever memory there is: to each list of bytes a session says one thing, where the replies are known.
pub fn one_answer()
    ensures { (t : Told) (number : ℕ) (bytes : List ℕ) → HasOneAnswer t number bytes }
{}

/// A law: what is said without waiting is said whatever is entered later.
pub fn longer_histories()
    ensures { (t u : Told) (number : ℕ) (bytes : List ℕ) (x : Speech) → Further t u → IsSpoken t number bytes x → x.stop ≢ Waits → IsSpoken u number bytes x }
{}

/// A law: what is said where more is entered later begins with what was said so far.
pub fn answers_grow()
    ensures { (t u : Told) (number : ℕ) (bytes : List ℕ) (x y : Speech) → Further t u → IsSpoken t number bytes x → IsSpoken u number bytes y → IsBeginning x y }
{}

/// A law: however a stream comes in pieces, a loop that hears them says the session's answer to all bytes.
pub fn any_pieces()
    // A session that has greeted took nothing.
    ensures new { (t : Told) (number : ℕ) (bytes : List ℕ) (f : Framing) (s : Progress) (before now : List ℕ) → t.replies ≡ [] → t.asks ≡ [] → f ≡ framing 0 [] → s ≡ (opening number).session → now ≡ before ++ spelled (opening number).sent → Following t number bytes 0 f s before now }
    // A further piece comes when all before it was taken.
    ensures more { (t : Told) (number : ℕ) (bytes piece : List ℕ) (f : Framing) (s : Progress) (before now : List ℕ) → Following t number bytes (length bytes) f s before now → Following t number (bytes ++ piece) (length bytes) f s before now }
    // What a step appended to nothing may stand behind what was written before.
    ensures behind { (o t : Told) (f : Framing) (s : Progress) (piece : List ℕ) (g : Framing) (s' : Progress) (r : AnyHearing) (now out : List ℕ) → Hears o t f s piece g s' r [] out → Hears o t f s piece g s' r now (now ++ out) }
    // A step goes on,
    ensures next { (t u : Told) (number : ℕ) (bytes : List ℕ) (at : ℕ) (f : Framing) (s : Progress) (g : Framing) (s' : Progress) (r : AnyHearing) (before now after : List ℕ) → Further t u → Following t number bytes at f s before now → Hears t u f s (drop at bytes) g s' r now after → r.stop ≡ Goes → Following u number bytes (at + r.used) g s' before after }
    // or the session stops,
    ensures stops { (t u : Told) (number : ℕ) (bytes : List ℕ) (at : ℕ) (f : Framing) (s : Progress) (g : Framing) (s' : Progress) (r : AnyHearing) (before now after : List ℕ) → Further t u → Following t number bytes at f s before now → Hears t u f s (drop at bytes) g s' r now after → r.stop ≢ Goes → IsAnswer u number bytes before after (record { stop = r.stop; ignored = s'.ignored }) }
    // or its bytes are over.
    ensures closed { (t : Told) (number : ℕ) (bytes : List ℕ) (at : ℕ) (f : Framing) (s : Progress) (before now : List ℕ) → Following t number bytes at f s before now → length bytes ≤ at → IsAnswer t number bytes before now (record { stop = Goes; ignored = s.ignored }) }
    // Wherever it is cut off, what it said is a beginning of that answer.
    ensures cut_off { (t u : Told) (number : ℕ) (bytes : List ℕ) (at : ℕ) (f : Framing) (s : Progress) (before now : List ℕ) (y : Speech) → Further t u → (w : Following t number bytes at f s before now) → IsSpoken u number bytes y → IsBeginning w.speech_is y }
    // At a full history its answer waits;
    ensures full { (t u : Told) (number : ℕ) (bytes : List ℕ) (at : ℕ) (f : Framing) (s : Progress) (before now : List ℕ) → Further t u → Following t number bytes at f s before now → Breaks t u f s (drop at bytes) Full → Awaits u number bytes before now s.ignored }
    // and wherever it breaks off, what it asked is a beginning of what that answer asks.
    ensures asked { (t u : Told) (number : ℕ) (bytes : List ℕ) (at : ℕ) (f : Framing) (s : Progress) (before now : List ℕ) (why : AnyBroken) (y : Speech) → Further t u → Following t number bytes at f s before now → Breaks t u f s (drop at bytes) why → IsSpoken u number bytes y → HasAsked u y }
{}
