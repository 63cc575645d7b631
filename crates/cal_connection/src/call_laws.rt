//! Laws of calls of both ports. Each is a theorem about the definitions that the contract of `run_calls` cites, and its
//! function does nothing.
ghost use Rattle.std.specs.Prelude.{◌≡◌, ◌↔◌, ℕ, None, length, replicate};
ghost use Rattle.cal_storage.specs.Contents.{Contents};
ghost use Rattle.cal_storage.specs.Holding.{Holds, IsNamed, JoinsHandles};
ghost use Rattle.cal_connection.specs.declared.port_call.PortCall.{PortCall};
ghost use Rattle.cal_connection.specs.declared.port_reply.PortReply.TheVariants.{Unsuited};
ghost use Rattle.cal_connection.specs.Calls.{BothEnds, AreJoined, IsSuited, reply_to, after_call};
ghost use Rattle.cal_connection.specs.Creation.{found_refusal, new_end, after_connecting};
ghost use Rattle.cal_connection.specs.Plan.{ConnectionPlan, path_of};
ghost use Rattle.cal_connection.specs.Port.{PortEntry, SenderEnd, ReceiverEnd, settings_at};
ghost use Rattle.cal_connection.specs.Words.{sender_bit, receiver_bit};

/// A call is answered as unsuited exactly where its condition doesn't hold, and changes nothing then.
pub fn a_call_is_unsuited_where_its_condition_fails()
    ensures unsuited { (ends : BothEnds) (call : PortCall) →
        (reply_to ends call ≡ Unsuited) ↔ (IsSuited ends call → ⊥) }
    ensures unchanged { (ends : BothEnds) (call : PortCall) → (IsSuited ends call → ⊥) → after_call ends call ≡ ends }
{}

/// A port that is created under the path of the other one is its other end: so both meet the condition of `run_calls`.
/// The premises are what the clauses of both creations tell.
pub fn ports_of_one_path_are_joined()
    ensures path { (contents : Contents PortEntry) (plan : ConnectionPlan) →
        (new_end contents plan).path ≡ path_of plan }
    ensures receiver { (contents new : Contents PortEntry) (sender : SenderEnd) (receiver : ReceiverEnd)
        (plan : ConnectionPlan) → Holds contents 1 sender.handle → IsNamed contents sender.handle →
        sender.handle.path ≡ path_of plan → found_refusal contents plan receiver_bit ≡ None →
        new ≡ after_connecting contents plan receiver_bit → receiver.handle ≡ new_end contents plan →
        receiver.borrow_counts ≡ replicate plan.options.settings.number_of_channels 0 →
        JoinsHandles contents new receiver.handle → AreJoined new sender receiver }
    ensures sender { (contents new : Contents PortEntry) (sender : SenderEnd) (receiver : ReceiverEnd)
        (plan : ConnectionPlan) → Holds contents 1 receiver.handle → IsNamed contents receiver.handle →
        receiver.handle.path ≡ path_of plan →
        length receiver.borrow_counts ≡ (settings_at contents receiver.handle).number_of_channels →
        new ≡ after_connecting contents plan sender_bit → sender.handle ≡ new_end contents plan →
        JoinsHandles contents new sender.handle → AreJoined new sender receiver }
{}
