//! How a transport is opened.

ghost use Rattle.std.specs.Prelude.{◌≡◌, ◌≤◌, [], Some, None, Err, IfOk, IfErr, OnOk};
ghost use Rattle.cal_transport.specs.Ledger.{first_ledger};
ghost use Rattle.cal_transport.specs.Opening.{IsNotOpened};
ghost use Rattle.cal_transport.specs.Settings.{create_cause};
ghost use Rattle.cal_transport.specs.Standing.{StandsFor};

use crate::settings::{CreateCause, Settings};
use crate::transport::Transport;
use crate::transport::opening::{lent_lists, new_memory, new_ports, new_view, owners_of_first};
use cal_storage::Registry;
use std::alloc::{AllocError, Global};
use thiserror::Error;

/// Why no transport was opened. Nothing is left of it.
#[derive(Clone, Copy, Debug, PartialEq, Eq, Error)]
pub enum OpenError {
    /// No transport can be made with the settings. No memory was taken.
    #[error("OpenError::Create")]
    Create(CreateCause),
    /// Memory ran out.
    #[error("OpenError::NoMemory")]
    NoMemory,
}

impl Transport {
    /// A transport in which nothing has happened yet, with room for this many loans. All memory is taken here, but that
    /// of further segments. Where there is a cause, no memory is taken.
    pub fn open(alloc: Global, settings: &Settings, loans: usize) -> Result<Transport, OpenError>
        ensures create { (cause : CreateCause) → create_cause settings.now ≡ Some cause →
            result ≡ Err (OpenError.Create cause) }
        ensures error { IfErr result (IsNotOpened settings.now) }
        ensures made { OnOk result (create_cause settings.now ≡ None) }
        ensures first { IfOk result (λ transport. StandsFor transport (first_ledger settings.now)) }
        ensures none { IfOk result (λ transport. transport.entries ≡ []) }
        ensures nothing { IfOk result (λ transport. transport.in_transit ≡ 0) }
        ensures room { IfOk result (λ transport. loans ≤ transport.spare) }
    {
        if let Some(cause) = settings.create_cause() {
            return Err(OpenError::Create(cause));
        }
        Self::make(alloc, settings, loans).map_err(|_| OpenError::NoMemory)
    }

    /// A transport with these settings, with which one can be made.
    fn make(alloc: Global, settings: &Settings, loans: usize) -> Result<Transport, AllocError>
        requires made { create_cause settings.now ≡ None }
        ensures first { IfOk result (λ transport. StandsFor transport (first_ledger settings.now)) }
        ensures none { IfOk result (λ transport. transport.entries ≡ []) }
        ensures nothing { IfOk result (λ transport. transport.in_transit ≡ 0) }
        ensures room { IfOk result (λ transport. loans ≤ transport.spare) }
    {
        let settings = settings.clamped();
        let entries = Vec::with_capacity(alloc, loans)?;
        let lent = lent_lists(alloc, &settings)?;
        let transits = vec![in alloc; 0; settings.channels]?;
        let owners = owners_of_first(alloc, settings.count)?;
        let mut memory_registry = Registry::new(alloc);
        let memory = new_memory(alloc, &mut memory_registry, &settings)?;
        let view = new_view(alloc, &mut memory_registry, &memory, &settings)?;
        let mut connection_registry = Registry::new(alloc);
        let ports = new_ports(alloc, &mut connection_registry, &settings)?;
        let (sender, receiver) = ports;
        Ok(Transport {
            settings,
            memory_registry,
            memory,
            view,
            connection_registry,
            sender,
            receiver,
            lent,
            entries,
            owners,
            transits,
            in_transit: 0,
        })
    }
}
