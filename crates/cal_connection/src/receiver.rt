//! The receiving end of a connection. Ported from `zero_copy_connection/common.rs` of iceoryx2-cal 0.9.3.
ghost use Rattle.std.specs.Prelude.{◌≡◌, ◌%◌, ◌<◌, not, length};
ghost use Rattle.std.specs.Borrow.{sem};
ghost use Rattle.cal_storage.specs.Contents.{Has};
ghost use Rattle.cal_storage.specs.Holding.{KeepsHandles};
ghost use Rattle.cal_storage.specs.RegistryLends.{LendsValue};
ghost use Rattle.cal_connection.specs.contracts.shared_management_data.SharedManagementData.{the_row};
ghost use Rattle.cal_connection.specs.Channel.{receive_answer, after_receive, count_after_receive, release_answer, after_release, count_after_release, is_empty};
ghost use Rattle.cal_connection.specs.Words.{receiver_bit};
ghost use Rattle.cal_connection.specs.Port.{ReceiverEnd, settings_at, channel_of, with_channel_of, count_at, with_count};

use crate::channel_id::ChannelId;
use crate::closing::close_end;
use crate::errors::{ZeroCopyReceiveError, ZeroCopyReleaseError};
use crate::port_details::ZeroCopyPortDetails;
use crate::shared_management_data::SharedManagementData;
use crate::words::RECEIVER_BIT;
use cal_alloc::{PointerOffset, SegmentId};
use cal_names::{FileName, NamedConcept};
use cal_storage::{DynamicStorage, Registry};
use std::marker::Model;

/// The end of a connection that receives offsets and gives them back.
pub trait ZeroCopyReceiver: ZeroCopyPortDetails {
    // The name, the handle of the connection's entry, and how many offsets are borrowed from each channel.
    ghost end: { Self → ReceiverEnd };

    /// Whether an offset is queued on a channel.
    fn has_data(&self, reg: &Registry<SharedManagementData>, channel_id: ChannelId) -> bool
        requires there { Has reg.now (Self.handle self.now) }
        requires channel { channel_id < (settings_at reg.now (Self.handle self.now)).number_of_channels }
        requires count { channel_id < length (end self.now).borrow_counts }
        ensures value { result ≡ not (is_empty (channel_of reg.now (Self.handle self.now) channel_id).submission) };

    /// Takes the oldest offset that is queued on a channel, if there is one; it is borrowed from now on. A refused call
    /// changes nothing.
    fn receive(
        &mut self,
        reg: &mut Registry<SharedManagementData>,
        channel_id: ChannelId,
    ) -> Result<Option<PointerOffset>, ZeroCopyReceiveError>
        requires there { Has reg.old (Self.handle self.old) }
        requires channel { channel_id < (settings_at reg.old (Self.handle self.old)).number_of_channels }
        requires count { channel_id < length (end self.old).borrow_counts }
        ensures answer { result ≡ receive_answer (settings_at reg.old (Self.handle self.old)).max_borrowed_samples
            (count_at (end self.old) channel_id) (channel_of reg.old (Self.handle self.old) channel_id) }
        ensures received { reg.new ≡ with_channel_of reg.old (Self.handle self.old) channel_id
            (after_receive (settings_at reg.old (Self.handle self.old)).max_borrowed_samples
            (count_at (end self.old) channel_id) (channel_of reg.old (Self.handle self.old) channel_id)) }
        ensures keeps { KeepsHandles reg.old reg.new }
        ensures port { end self.new ≡ with_count (end self.old) channel_id
            (count_after_receive result (count_at (end self.old) channel_id)) };

    /// Gives an offset back to the sender on a channel, from which one is borrowed less then. A refused call changes
    /// nothing.
    fn release(
        &mut self,
        reg: &mut Registry<SharedManagementData>,
        ptr: PointerOffset,
        channel_id: ChannelId,
    ) -> Result<(), ZeroCopyReleaseError>
        requires there { Has reg.old (Self.handle self.old) }
        requires channel { channel_id < (settings_at reg.old (Self.handle self.old)).number_of_channels }
        requires count { channel_id < length (end self.old).borrow_counts }
        requires borrowed { 0 < count_at (end self.old) channel_id }
        ensures answer { result ≡ release_answer (channel_of reg.old (Self.handle self.old) channel_id) }
        ensures released { reg.new ≡ with_channel_of reg.old (Self.handle self.old) channel_id
            (after_release (channel_of reg.old (Self.handle self.old) channel_id) ptr) }
        ensures keeps { KeepsHandles reg.old reg.new }
        ensures port { end self.new ≡ with_count (end self.old) channel_id
            (count_after_release result (count_at (end self.old) channel_id)) };

    /// How many offsets are borrowed from a channel.
    fn borrow_count(&self, channel_id: ChannelId) -> usize
        requires { channel_id < length (end self.now).borrow_counts }
        ensures value { result ≡ count_at (end self.now) channel_id };

    // The handle is that of the end.
    ghost handle_of_end: { (receiver : Self) → (end receiver).handle ≡ Self.handle receiver };
}

/// A receiver over a storage. Contracts see its name, the handle of its entry and its borrow counts.
#[derive(Debug, Drop)]
pub struct Receiver<S: DynamicStorage<SharedManagementData>> {
    /// The name of the connection.
    pub(crate) name: FileName,
    /// What holds the connection's entry.
    pub(crate) storage: S,
    /// How many offsets are borrowed from each channel.
    pub(crate) borrow_counts: Vec<usize>,
}

impl<S: DynamicStorage<SharedManagementData>> Model for Receiver<S> {
    ghost use Rattle.cal_connection.specs.Port.{ReceiverEnd};

    ghost Value = { ReceiverEnd };

    ghost view = { λ r. record {
      name = r.name;
      handle = S.handle r.storage;
      borrow_counts = r.borrow_counts.items;
    } };
}

impl<S: DynamicStorage<SharedManagementData>> Receiver<S> {
    /// The segment of an index that counts the segments of one channel after another.
    pub fn segment_id_from_index(
        &self,
        reg: &Registry<SharedManagementData>,
        index: usize,
    ) -> SegmentId
        requires there { Has reg.now self.now.handle }
        ensures value { result ≡ index % (settings_at reg.now self.now.handle).number_of_segments }
    {
        let settings = self.management_data(reg).settings();
        SegmentId::new((index % settings.number_of_segments as usize) as u8)
    }
}

impl<S: DynamicStorage<SharedManagementData>> NamedConcept for Receiver<S> {
    ghost concept_name = { λ r. r.name };

    fn name(&self) -> &FileName {
        &self.name
    }
}

impl<S: DynamicStorage<SharedManagementData>> ZeroCopyPortDetails for Receiver<S> {
    ghost handle = { λ r. r.handle };

    ghost bit = { receiver_bit };

    fn management_data<'r>(
        &self,
        reg: &'r Registry<SharedManagementData>,
    ) -> &'r SharedManagementData {
        self.storage.get(reg)
    }

    fn management_data_mut<'r>(
        reg: &'r mut Registry<SharedManagementData>,
        port: &Self,
    ) -> &'r mut SharedManagementData {
        S::get_mut(reg, &port.storage)
    }

    fn close(self, reg: &mut Registry<SharedManagementData>) {
        let Receiver {
            name: _,
            storage,
            borrow_counts: _,
        } = self;
        close_end(reg, storage, RECEIVER_BIT);
    }
}

impl<S: DynamicStorage<SharedManagementData>> ZeroCopyReceiver for Receiver<S> {
    ghost use Rattle.std.specs.Prelude.{refl};

    ghost end = { λ r. r };

    fn has_data(&self, reg: &Registry<SharedManagementData>, channel_id: ChannelId) -> bool {
        !self.management_data(reg).is_empty(channel_id.value())
    }

    #[tactic(auto, using(crate::proofs::Written::keeps_handles))]
    fn receive(
        &mut self,
        reg: &mut Registry<SharedManagementData>,
        channel_id: ChannelId,
    ) -> Result<Option<PointerOffset>, ZeroCopyReceiveError> {
        let channel = channel_id.value();
        let count = self.borrow_counts[channel];
        let answer = Self::management_data_mut(reg, self).receive(count, channel);
        if let Ok(Some(_)) = &answer {
            self.borrow_counts[channel] = count + 1;
        }
        answer
    }

    #[tactic(auto, using(crate::proofs::Written::keeps_handles))]
    fn release(
        &mut self,
        reg: &mut Registry<SharedManagementData>,
        ptr: PointerOffset,
        channel_id: ChannelId,
    ) -> Result<(), ZeroCopyReleaseError> {
        let channel = channel_id.value();
        let count = self.borrow_counts[channel];
        Self::management_data_mut(reg, self).release(ptr, channel)?;
        self.borrow_counts[channel] = count - 1;
        Ok(())
    }

    fn borrow_count(&self, channel_id: ChannelId) -> usize {
        self.borrow_counts[channel_id.value()]
    }

    ghost handle_of_end = { λ receiver. refl };
}
