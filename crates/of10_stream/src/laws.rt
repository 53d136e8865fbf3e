//! Laws of streams.

ghost use Rattle.std.specs.Prelude.{ℕ, ◌≡◌, ◌+◌, List, [], ◌∷◌, ◌++◌, length, take};
ghost use Rattle.of10_msgs.specs.declared.message.Message.{Message};
ghost use Rattle.of10_stream.specs.declared.framer.Fed.{Fed};
ghost use Rattle.of10_stream.specs.declared.framer.FrameRefusal.{FrameRefusal};
ghost use Rattle.of10_stream.specs.declared.tail.Tail.{Tail};
ghost use Rattle.of10_stream.specs.Cuttings.{Cuts, Follows, Spell, joined};
ghost use Rattle.of10_stream.specs.Framings.{Framing, framing, IsOpen, IsReady, IsRefusedAt, Takes};
ghost use Rattle.of10_stream.specs.Streams.{HasOneStream, IsStream};

/// A law, whatever memory there is: each list of bytes is the spellings of one list of messages and one tail.
pub fn one_stream()
    ensures { (bytes : List ℕ) → HasOneStream bytes }
{}

/// A law: however a stream is cut into pieces, the frames that a framer makes ready, and the header that it refuses, are
/// those of all bytes, cut by their headers. Bytes are cut so in one way, and the first frames spell the stream's messages.
pub fn any_cutting()
    // A new framer took nothing.
    ensures new { Follows [] [] (framing 0 []) }
    // It takes bytes of a piece,
    ensures fed { (taken : List ℕ) (frames : List (List ℕ)) (f g : Framing) (piece : List ℕ) (fed : Fed) → Follows taken frames f → Takes f piece g fed → Follows (taken ++ take fed.used piece) frames g }
    // and lets a frame go.
    ensures gone { (taken : List ℕ) (frames : List (List ℕ)) (f : Framing) → Follows taken frames f → IsReady f → Follows taken (frames ++ f.held ∷ []) (framing (f.start + length f.held) []) }
    // While none is ready, its frames are those of all bytes that it took.
    ensures waiting { (taken : List ℕ) (frames : List (List ℕ)) (f : Framing) → Follows taken frames f → IsOpen f → Cuts taken frames f.held }
    // Where a header is refused, they are all, whatever comes behind it; its place counts from the first byte.
    ensures refused { (taken : List ℕ) (frames : List (List ℕ)) (f : Framing) (piece : List ℕ) (r : FrameRefusal) → Follows taken frames f → (h : IsRefusedAt f.start (f.held ++ piece) r) → Cuts (taken ++ piece) frames (f.held ++ piece) × (r.at ≡ length (joined frames) + h.0.at) }
    ensures once { (bytes : List ℕ) (fs gs : List (List ℕ)) (q r : List ℕ) → Cuts bytes fs q → Cuts bytes gs r → (fs ≡ gs) × (q ≡ r) }
    ensures read { (bytes : List ℕ) (frames : List (List ℕ)) (q : List ℕ) (ms : List Message) (t : Tail) → Cuts bytes frames q → IsStream bytes ms t → Spell ms frames }
{}
