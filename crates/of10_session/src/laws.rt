//! Laws of sessions.

ghost use Rattle.std.specs.Prelude.{◌≡◌, ℕ, []};
ghost use Rattle.std.specs.List.{AllByRecursion};
ghost use Rattle.csdn_history.specs.declared.reply.Reply.{Reply as AnyReply};
ghost use Rattle.of10_msgs.specs.declared.message.Message.{Message as AnyMessage};
ghost use Rattle.of10_msgs.specs.declared.message.Message.TheVariants.{Hello};
ghost use Rattle.of10_msgs.specs.Sending.{IsSendable};
ghost use Rattle.of10_session.specs.Progresses.{Progress, IsTalking, IsListening};
ghost use Rattle.of10_session.specs.Sessions.{turn, IsOrderly};
ghost use Rattle.of10_session.specs.Replies.{answered, passed, IsServable};

/// A law: all that a session sends can be sent.
pub fn all_sendable()
    ensures greeting { (x : ℕ) → IsSendable (Hello x 1 []) }
    ensures said { (s : Progress) (m : AnyMessage) → IsSendable m → AllByRecursion IsSendable (turn s m).sent }
    ensures answers { (s : Progress) (reply : AnyReply) → IsServable reply → AllByRecursion IsSendable (answered s reply).sent }
{}

/// A law: at each message a session goes on and listens, asks and waits for the answer, or ends; answered or let go, it
/// listens again.
pub fn one_ask()
    ensures turns { (s : Progress) (m : AnyMessage) → IsListening s → IsOrderly s (turn s m) }
    ensures answers { (s : Progress) (reply : AnyReply) → IsTalking s.phase → IsListening (answered s reply).session }
    ensures passes { (s : Progress) → IsTalking s.phase → IsListening (passed s) }
{}
