//! How a client binds a global that need not have been announced.
ghost use Rattle.std.specs.Prelude.{◌≡◌, true, OnErr, OnOk};
ghost use Rattle.wl_connection.specs.Outcomes.{AnswersOrMemory, some_object};
ghost use Rattle.wl_client.specs.Unannounced.{after_unannounced, any_global, unannounced_answer};

use crate::bind::can_bind;
use crate::client::Client;
use crate::globals::Global;
use wl_objects::{BindMessage, Maker, Object, REGISTRY, SendError, Table, live_row};
use wl_sigs::Tables;

impl<'t, T: Table> Client<'t, T> {
    /// Binds a global that need not have been announced: the server judges the bind. What was
    /// announced is neither consulted nor changed.
    ///
    /// The message has this version. The object has the version that the tables at this end have
    /// now, so no message of these tables is too new for it here; the server refuses what is too
    /// new for its object. So the two ends can then differ in the version of the object, and a pair
    /// has no such move.
    ///
    /// The refusals are tested in the order of their numbers: S1, S2, S3 (`registry` is no
    /// wl_registry), S7 (the tables have no such interface, or the version is 0 or above theirs),
    /// S9, S10, S11.
    pub fn bind_unannounced(
        &mut self,
        registry: Object,
        name: u32,
        iface: &[u8],
        version: u32,
    ) -> Result<Object, SendError>
        ensures answer { AnswersOrMemory SendError.Memory true
            (unannounced_answer self.old registry name iface.now version) (some_object result) }
        ensures ok { OnOk result
            (self.new ≡ after_unannounced self.old registry name iface.now version) }
        ensures err { OnErr result (self.new ≡ self.old) }
    {
        if self.end.core.failed {
            return Err(SendError::Failed);
        }
        let Some(entry) = live_row(&self.end.core.objects, registry) else {
            return Err(SendError::Stale);
        };
        if entry.iface != REGISTRY {
            return Err(SendError::NoSuchMessage);
        }
        let global = match any_global(self.end.core.tables, name, iface) {
            Some(global) if can_bind(self.end.core.tables, global, iface, version) => global,
            _ => return Err(SendError::BadBind),
        };
        let unopened = BindMessage {
            registry: registry.id,
            name,
            iface,
            version,
            id: 0,
        };
        if !self.end.core.fits(unopened.len(), 0) {
            return Err(SendError::Full);
        }
        let object = self
            .end
            .core
            .open_next(Maker::Client, global.iface, global.version)?;
        self.end
            .core
            .write_bind(registry.id, name, iface, version, object.id);
        Ok(object)
    }
}

/// The global with this name and interface, at the version that the tables have.
fn any_global(tables: &Tables, name: u32, iface: &[u8]) -> Option<Global>
    ensures { result ≡ any_global tables.now name iface.now }
{
    let place = tables.interface(iface)?;
    let version = tables.version(place)?;
    Some(Global {
        name,
        iface: place,
        version,
    })
}
