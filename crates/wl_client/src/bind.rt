//! How a client binds a global.
ghost use Rattle.std.specs.Prelude.{◌≡◌, Some, true, OnErr, OnOk, is_some};
ghost use Rattle.wl_connection.specs.Outcomes.{AnswersOrMemory, some_object};
ghost use Rattle.wl_client.specs.State.{global_of};
ghost use Rattle.wl_client.specs.Calls.{after_bind, bind_answer, can_bind};
ghost use Rattle.wl_client.specs.Binding.{FitsBind};

use crate::client::Client;
use crate::globals::Global;
use wl_objects::{BindMessage, Maker, Object, REGISTRY, SendError, Table, live_row};
use wl_sigs::Tables;

impl<'t, T: Table> Client<'t, T> {
    /// Whether the client remembers a global of this name, so that `bind` can bind it. An announced
    /// global is not remembered if its interface was not in the tables at the time, or if 1,024
    /// others were remembered.
    pub fn remembers(&self, name: u32) -> bool
        ensures { result ≡ is_some (global_of self.now.globals name) }
    {
        self.role.globals.has(name)
    }

    /// Binds an announced global, by its name and interface, and returns the new object, which has
    /// this version.
    ///
    /// The refusals are tested in the order of their numbers: S1, S2, S3 (`registry` is no
    /// wl_registry), S7, S9, S10, S11.
    pub fn bind(
        &mut self,
        registry: Object,
        name: u32,
        iface: &[u8],
        version: u32,
    ) -> Result<Object, SendError>
        ensures answer { AnswersOrMemory SendError.Memory true
            (bind_answer self.old registry name iface.now version) (some_object result) }
        ensures ok { OnOk result (self.new ≡ after_bind self.old registry name iface.now version) }
        ensures err { OnErr result (self.new ≡ self.old) }
    {
        if self.end.core.failed {
            return Err(SendError::Failed);
        }
        let Some(entry) = live_row(&self.end.core.objects, registry) else {
            return Err(SendError::Stale);
        };
        if entry.iface != REGISTRY {
            return Err(SendError::NoSuchMessage);
        }
        let global = match self.role.globals.get(name) {
            Some(global) if can_bind(self.end.core.tables, global, iface, version) => global,
            _ => return Err(SendError::BadBind),
        };
        let unopened = BindMessage {
            registry: registry.id,
            name,
            iface,
            version,
            id: 0,
        };
        if !self.end.core.fits(unopened.len(), 0) {
            return Err(SendError::Full);
        }
        let object = self
            .end
            .core
            .open_next(Maker::Client, global.iface, version)?;
        self.end
            .core
            .write_bind(registry.id, name, iface, version, object.id);
        Ok(object)
    }
}

/// Whether a global has this interface, and was advertised with at least this version, which the
/// tables have.
pub(crate) fn can_bind(tables: &Tables, global: Global, iface: &[u8], version: u32) -> bool
    ensures answer { result ≡ can_bind tables.now iface.now version (Some global) }
    ensures fits { result ≡ true → FitsBind iface.now }
{
    match (tables.name(global.iface), tables.version(global.iface)) {
        (Some(known), Some(latest)) => {
            known == iface && 1 <= version && version <= global.version && version <= latest
        }
        _ => false,
    }
}
