//! The sending end of a connection. Ported from `zero_copy_connection/common.rs` of iceoryx2-cal 0.9.3.
ghost use Rattle.std.specs.Prelude.{◌≡◌, ◌%◌, ℕ, ◌<◌, ◌^◌};
ghost use Rattle.std.specs.Borrow.{sem};
ghost use Rattle.cal_storage.specs.Contents.{Has};
ghost use Rattle.cal_storage.specs.Holding.{KeepsHandles};
ghost use Rattle.cal_storage.specs.RegistryLends.{LendsValue};
ghost use Rattle.cal_connection.specs.contracts.shared_management_data.SharedManagementData.{the_row};
ghost use Rattle.cal_queue.specs.Callback.{MayRunOver, RunsOver};
ghost use Rattle.cal_queue.specs.FirstFrom.{IsFirstFrom};
ghost use Rattle.cal_connection.specs.Acquisition.{IsAcquirable, used_offsets, after_acquiring};
ghost use Rattle.cal_connection.specs.Backpressure.{obstacle, AnswersObstacle};
ghost use Rattle.cal_connection.specs.Channel.{send_answer, after_send, reclaim_answer, after_reclaim, is_used};
ghost use Rattle.cal_connection.specs.Words.{sender_bit};
ghost use Rattle.cal_connection.specs.Port.{port_at, with_port, settings_at, channel_of, with_channel_of, is_in_use, IsWithin, IsSendable};

use crate::backpressure::{BackpressureToReceiverAction, Clock};
use crate::blocking::face;
use crate::channel_id::ChannelId;
use crate::closing::close_end;
use crate::errors::{ZeroCopyReclaimError, ZeroCopySendError};
use crate::port_details::ZeroCopyPortDetails;
use crate::shared_management_data::SharedManagementData;
use crate::words::SENDER_BIT;
use cal_alloc::{PointerOffset, SegmentId};
use cal_names::{FileName, NamedConcept};
use cal_storage::{DynamicStorage, Registry};
use std::marker::Model;
use std::sync::Wait;

/// The end of a connection that sends offsets and takes them back.
pub trait ZeroCopySender: ZeroCopyPortDetails {
    /// Sends an offset on a channel: its sample, of that size in bytes, is in use on the channel from now on. Where the
    /// queue is full and the connection overflows, the oldest offset leaves it, isn't in use any more, and is the
    /// answer. After `ReceiveBufferFull` nothing has changed. After `ConnectionCorrupted` the new offset is in use and
    /// queued, and the oldest is gone.
    fn try_send(
        &mut self,
        reg: &mut Registry<SharedManagementData>,
        ptr: PointerOffset,
        sample_size: usize,
        channel_id: ChannelId,
    ) -> Result<Option<PointerOffset>, ZeroCopySendError>
        requires there { Has reg.old (Self.handle self.old) }
        requires sendable { IsSendable (port_at reg.old (Self.handle self.old)) channel_id ptr sample_size }
        ensures answer { result ≡ send_answer (settings_at reg.old (Self.handle self.old)).enable_safe_overflow
            (channel_of reg.old (Self.handle self.old) channel_id) ptr sample_size }
        ensures sent { reg.new ≡ with_channel_of reg.old (Self.handle self.old) channel_id
            (after_send (settings_at reg.old (Self.handle self.old)).enable_safe_overflow
            (channel_of reg.old (Self.handle self.old) channel_id) ptr sample_size) }
        ensures keeps { KeepsHandles reg.old reg.new }
        ensures port { self.new ≡ self.old };

    /// Sends an offset as `try_send` does, and asks the handler what to do while the queue is full and the connection
    /// doesn't overflow, where both ports are there and the channel isn't closed. The handler is told the number of its
    /// earlier calls and the ticks that have passed since the first look; `action` is what
    /// `FollowBackpressureyStrategy` stands for. Since nobody else acts on the registry while it is lent, a handler
    /// that always answers `Retry` never lets the call return. A refused call changes nothing, save after
    /// `ConnectionCorrupted`, as in `try_send`.
    fn blocking_send<R: Wait, F: Fn(u64, u64) -> BackpressureToReceiverAction + Drop, C: Clock>(
        &mut self,
        rt: &R,
        reg: &mut Registry<SharedManagementData>,
        ptr: PointerOffset,
        sample_size: usize,
        channel_id: ChannelId,
        handler: F,
        action: BackpressureToReceiverAction,
        clock: &mut C,
    ) -> Result<Option<PointerOffset>, ZeroCopySendError>
        requires there { Has reg.old (Self.handle self.old) }
        requires sendable { IsSendable (port_at reg.old (Self.handle self.old)) channel_id ptr sample_size }
        requires callable { (retry ticks : ℕ) → retry < 2 ^ 64 → ticks < 2 ^ 64 → F.pre handler retry ticks }
        ensures answer { AnswersObstacle (λ retry answer.
            (ticks : ℕ) × (ticks < 2 ^ 64) × F.post handler retry ticks answer)
            action (obstacle (port_at reg.old (Self.handle self.old)) channel_id)
            (send_answer (settings_at reg.old (Self.handle self.old)).enable_safe_overflow
            (channel_of reg.old (Self.handle self.old) channel_id) ptr sample_size) result }
        ensures sent { reg.new ≡ with_channel_of reg.old (Self.handle self.old) channel_id
            (after_send (settings_at reg.old (Self.handle self.old)).enable_safe_overflow
            (channel_of reg.old (Self.handle self.old) channel_id) ptr sample_size) }
        ensures keeps { KeepsHandles reg.old reg.new }
        ensures port { self.new ≡ self.old };

    /// Whether the sample of an offset, of that size in bytes, is in use on a channel.
    fn is_in_use(
        &self,
        reg: &Registry<SharedManagementData>,
        ptr: PointerOffset,
        sample_size: usize,
        channel_id: ChannelId,
    ) -> bool
        requires there { Has reg.now (Self.handle self.now) }
        requires within { IsWithin (port_at reg.now (Self.handle self.now)) channel_id ptr sample_size }
        ensures value { result ≡ is_in_use (port_at reg.now (Self.handle self.now)) channel_id ptr sample_size };

    /// Takes the oldest offset that the receiver gave back on a channel; it isn't in use any more. After
    /// `ReceiverReturnedCorruptedPointerOffset` what was given back is gone, and nothing else has changed.
    fn reclaim(
        &mut self,
        reg: &mut Registry<SharedManagementData>,
        channel_id: ChannelId,
    ) -> Result<Option<PointerOffset>, ZeroCopyReclaimError>
        requires there { Has reg.old (Self.handle self.old) }
        requires channel { channel_id < (settings_at reg.old (Self.handle self.old)).number_of_channels }
        ensures answer { result ≡ reclaim_answer (channel_of reg.old (Self.handle self.old) channel_id) }
        ensures reclaimed { reg.new ≡ with_channel_of reg.old (Self.handle self.old) channel_id
            (after_reclaim (channel_of reg.old (Self.handle self.old) channel_id)) }
        ensures keeps { KeepsHandles reg.old reg.new }
        ensures port { self.new ≡ self.old };

    /// Takes all samples out of use, and calls the callback once on the offset of each, by channel, then by segment,
    /// then by index. The offset of a sample is its index times the size that the last send told of its segment on its
    /// channel, and has to be below 2^56. What is queued and what was released stays in its queue. So this is for a
    /// sender that is about to end: an offset that comes back afterwards names no sample in use.
    fn acquire_used_offsets<F: FnMut(PointerOffset) + Drop>(
        &mut self,
        reg: &mut Registry<SharedManagementData>,
        callback: F,
    )
        requires there { Has reg.old (Self.handle self.old) }
        requires acquirable { IsAcquirable (port_at reg.old (Self.handle self.old)) }
        requires callable { MayRunOver F.FnMut callback (used_offsets (port_at reg.old (Self.handle self.old))) }
        ensures called { RunsOver F.FnMut callback (used_offsets (port_at reg.old (Self.handle self.old))) }
        ensures acquired { reg.new ≡ with_port reg.old (Self.handle self.old)
            (after_acquiring (port_at reg.old (Self.handle self.old))) }
        ensures keeps { KeepsHandles reg.old reg.new }
        ensures port { self.new ≡ self.old };
}

/// A sender over a storage. Contracts see its name and the handle of its entry.
#[derive(Debug, Drop)]
pub struct Sender<S: DynamicStorage<SharedManagementData>> {
    /// The name of the connection.
    pub(crate) name: FileName,
    /// What holds the connection's entry.
    pub(crate) storage: S,
}

impl<S: DynamicStorage<SharedManagementData>> Model for Sender<S> {
    ghost use Rattle.cal_connection.specs.Port.{SenderEnd};

    ghost Value = { SenderEnd };

    ghost view = { λ s. record { name = s.name; handle = S.handle s.storage } };
}

impl<S: DynamicStorage<SharedManagementData>> Sender<S> {
    /// The first sample of a segment, from this index on, that is in use on a channel; none where none is. It costs
    /// what the used list's own call costs, which looks at whole words.
    pub fn next_used(
        &self,
        reg: &Registry<SharedManagementData>,
        channel_id: ChannelId,
        segment_id: SegmentId,
        from: usize,
    ) -> Option<usize>
        requires there { Has reg.now self.now.handle }
        requires channel { channel_id < (settings_at reg.now self.now.handle).number_of_channels }
        requires segment { segment_id < (settings_at reg.now self.now.handle).number_of_segments }
        ensures first { IsFirstFrom (is_used (channel_of reg.now self.now.handle channel_id).segments segment_id)
            from result }
    {
        let segment = segment_id.value() as usize;
        self.management_data(reg)
            .next_used(channel_id.value(), segment, from)
    }

    /// The segment of an index that counts the segments of one channel after another.
    pub fn segment_id_from_index(
        &self,
        reg: &Registry<SharedManagementData>,
        index: usize,
    ) -> SegmentId
        requires there { Has reg.now self.now.handle }
        ensures value { result ≡ index % (settings_at reg.now self.now.handle).number_of_segments }
    {
        let settings = self.management_data(reg).settings();
        SegmentId::new((index % settings.number_of_segments as usize) as u8)
    }
}

impl<S: DynamicStorage<SharedManagementData>> NamedConcept for Sender<S> {
    ghost concept_name = { λ s. s.name };

    fn name(&self) -> &FileName {
        &self.name
    }
}

impl<S: DynamicStorage<SharedManagementData>> ZeroCopyPortDetails for Sender<S> {
    ghost handle = { λ s. s.handle };

    ghost bit = { sender_bit };

    fn management_data<'r>(
        &self,
        reg: &'r Registry<SharedManagementData>,
    ) -> &'r SharedManagementData {
        self.storage.get(reg)
    }

    fn management_data_mut<'r>(
        reg: &'r mut Registry<SharedManagementData>,
        port: &Self,
    ) -> &'r mut SharedManagementData {
        S::get_mut(reg, &port.storage)
    }

    fn close(self, reg: &mut Registry<SharedManagementData>) {
        let Sender { name: _, storage } = self;
        close_end(reg, storage, SENDER_BIT);
    }
}

impl<S: DynamicStorage<SharedManagementData>> ZeroCopySender for Sender<S> {
    #[tactic(auto, using(crate::proofs::Written::keeps_handles))]
    fn try_send(
        &mut self,
        reg: &mut Registry<SharedManagementData>,
        ptr: PointerOffset,
        sample_size: usize,
        channel_id: ChannelId,
    ) -> Result<Option<PointerOffset>, ZeroCopySendError> {
        Self::management_data_mut(reg, self).try_send(ptr, sample_size, channel_id.value())
    }

    #[tactic(auto, using(crate::proofs::Written::keeps_handles))]
    fn blocking_send<R: Wait, F: Fn(u64, u64) -> BackpressureToReceiverAction + Drop, C: Clock>(
        &mut self,
        rt: &R,
        reg: &mut Registry<SharedManagementData>,
        ptr: PointerOffset,
        sample_size: usize,
        channel_id: ChannelId,
        handler: F,
        action: BackpressureToReceiverAction,
        clock: &mut C,
    ) -> Result<Option<PointerOffset>, ZeroCopySendError> {
        let obstacle = self.management_data(reg).obstacle(channel_id.value());
        face(rt, obstacle, &handler, action, clock)?;
        self.try_send(reg, ptr, sample_size, channel_id)
    }

    fn is_in_use(
        &self,
        reg: &Registry<SharedManagementData>,
        ptr: PointerOffset,
        sample_size: usize,
        channel_id: ChannelId,
    ) -> bool {
        self.management_data(reg)
            .is_in_use(ptr, sample_size, channel_id.value())
    }

    #[tactic(auto, using(crate::proofs::Written::keeps_handles))]
    fn reclaim(
        &mut self,
        reg: &mut Registry<SharedManagementData>,
        channel_id: ChannelId,
    ) -> Result<Option<PointerOffset>, ZeroCopyReclaimError> {
        Self::management_data_mut(reg, self).reclaim(channel_id.value())
    }

    #[tactic(auto, using(crate::proofs::Written::keeps_handles))]
    fn acquire_used_offsets<F: FnMut(PointerOffset) + Drop>(
        &mut self,
        reg: &mut Registry<SharedManagementData>,
        callback: F,
    ) {
        self.management_data(reg).call_on_used(callback);
        Self::management_data_mut(reg, self).empty_used();
    }
}
