//! How a pair of ports is made.
ghost use Rattle.std.specs.Prelude.{◌≡◌, ◌<◌, ◌≤◌, ◌^◌, ◌⊎◌, ◌↔◌, IsTrue, IfErr, IfOk, Err};
ghost use Rattle.cal_connection.specs.Settings.{IsClamped, completion_size};
ghost use Rattle.cal_connection.specs.declared.errors.ZeroCopyCreationError.TheVariants.{NoMemory, SizeOutOfRange};
ghost use Rattle.cal_shared.specs.New.{AreNewChannels, IsNewPort, IsNewReceivingChannel, IsNewSendingChannel};
ghost use Rattle.cal_shared.specs.Port.{IsOnePair};
ghost use Rattle.cal_shared.specs.Settings.{connection_settings, is_pair_too_large};

use crate::port_settings::{PortSettings, is_pair_too_large};
use crate::receiving_end::ReceivingEnd;
use crate::sending_end::SendingEnd;
use crate::shared_port::SharedPort;
use crate::shared_receiver::SharedReceiver;
use crate::shared_sender::SharedSender;
use crate::used_samples::new_segments;
use crate::words::BOTH_PORTS;
use cal_connection::{ConnectionSettings, ZeroCopyCreationError};
use cal_queue::completion_ring::CompletionRing;
use cal_queue::state_table::StateTable;
use cal_queue::submission_ring::SubmissionRing;
use std::alloc::{AllocError, Global};

/// Both ends of a new channel. The error says that memory ran out.
fn new_channel(
    alloc: Global,
    settings: &ConnectionSettings,
) -> Result<(SendingEnd, ReceivingEnd), AllocError>
    requires clamped { IsClamped settings.now }
    requires few { completion_size settings.now < 2 ^ 32 }
    ensures sender { IfOk result (λ ends. IsNewSendingChannel settings.now ends.0) }
    ensures receiver { IfOk result (λ ends. IsNewReceivingChannel settings.now ends.1) }
    ensures rings { IfOk result (λ ends. ends.0.rings ≡ ends.1.rings) }
{
    let (send, take) = SubmissionRing::new(alloc, settings.buffer_size)?;
    let room = settings.buffer_size + settings.max_borrowed_samples + 1;
    let (put, get) = CompletionRing::new(alloc, room)?;
    let sending = SendingEnd {
        submission: send,
        completion: get,
        segments: new_segments(alloc, settings)?,
    };
    let receiving = ReceivingEnd {
        submission: take,
        completion: put,
        borrow_count: 0,
    };
    Ok((sending, receiving))
}

/// Both ends of each channel of a new connection. The error says that memory ran out.
fn new_channels(
    alloc: Global,
    settings: &ConnectionSettings,
) -> Result<(Vec<SendingEnd>, Vec<ReceivingEnd>), AllocError>
    requires clamped { IsClamped settings.now }
    requires few { completion_size settings.now < 2 ^ 32 }
    ensures made { IfOk result (λ ends.
        AreNewChannels settings.now settings.now.number_of_channels ends.0.items ends.1.items) }
{
    let channels = settings.number_of_channels;
    let mut sending = Vec::with_capacity(alloc, channels)?;
    let mut receiving = Vec::with_capacity(alloc, channels)?;
    for _ in 0..channels {
        let (sender, receiver) = new_channel(alloc, settings)?;
        sending.push(sender)?;
        receiving.push(receiver)?;
    }
    Ok((sending, receiving))
}

/// A pair with these settings, whose channels begin with this word. The error says that memory ran out.
fn new_pair(
    alloc: Global,
    settings: &ConnectionSettings,
    initial: u64,
) -> Result<(SharedSender, SharedReceiver), AllocError>
    requires clamped { IsClamped settings.now }
    requires few { completion_size settings.now < 2 ^ 32 }
    ensures pair { IfOk result (λ ports. IsOnePair ports.0 ports.1) }
    ensures sender { IfOk result (λ ports. IsNewPort IsNewSendingChannel settings.now initial ports.0) }
    ensures receiver { IfOk result (λ ports. IsNewPort IsNewReceivingChannel settings.now initial ports.1) }
{
    let (first, second) = StateTable::new(alloc, settings.number_of_channels, BOTH_PORTS, initial)?;
    let (sending, receiving) = new_channels(alloc, settings)?;
    let sender = SharedPort {
        settings: *settings,
        states: first,
        channels: sending,
    };
    let receiver = SharedPort {
        settings: *settings,
        states: second,
        channels: receiving,
    };
    Ok((sender, receiver))
}

/// A sender and a receiver of a new connection, both connected. All the memory that they ever need is taken here. They
/// are refused as `SizeOutOfRange` where a completion ring would have room for 2^32 offsets or more, or the lists of
/// used samples together for 2^63 samples or more, and else only as `NoMemory`.
pub fn shared_pair(
    alloc: Global,
    settings: &PortSettings,
) -> Result<(SharedSender, SharedReceiver), ZeroCopyCreationError>
    ensures too_large { IsTrue (is_pair_too_large (connection_settings settings.now)) ↔ (result ≡ Err SizeOutOfRange) }
    ensures error { IfErr result (λ error. (error ≡ SizeOutOfRange) ⊎ (error ≡ NoMemory)) }
    ensures pair { IfOk result (λ ports. IsOnePair ports.0 ports.1) }
    ensures sender { IfOk result (λ ports. IsNewPort IsNewSendingChannel (connection_settings settings.now)
        settings.now.initial ports.0) }
    ensures receiver { IfOk result (λ ports. IsNewPort IsNewReceivingChannel (connection_settings settings.now)
        settings.now.initial ports.1) }
{
    let connection = settings.connection_settings();
    if is_pair_too_large(&connection) {
        return Err(ZeroCopyCreationError::SizeOutOfRange);
    }
    match new_pair(alloc, &connection, settings.initial.value()) {
        Ok(ports) => Ok(ports),
        Err(_) => Err(ZeroCopyCreationError::NoMemory),
    }
}
