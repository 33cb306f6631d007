//! Calls of tables.
ghost use Rattle.std.specs.Prelude.{◌≡◌, ◌⊎◌, ◌≢◌, Err, MatchOption, length as len};
ghost use Rattle.wl_sigs.specs.Tables.{interface_at, place_of};
ghost use Rattle.wl_sigs.specs.Outcome.{outcome};
ghost use Rattle.wl_text.specs.declared.fault.TableFault.TheVariants.{};
ghost use Rattle.wl_text.specs.declared.fault.TableFault.TheVariants.{BadLine as bad_line};
ghost use Rattle.wl_text.specs.declared.fault.TableFault.TheVariants.{};
ghost use Rattle.wl_text.specs.declared.fault.TableFault.TheVariants.{BadTable as bad_table};
ghost use Rattle.waywire_c.specs.Inspecting.{IsTried};
ghost use Rattle.waywire_c.specs.Statuses.{find_outcome, table_outcome, table_status};
ghost use Rattle.waywire_c.specs.Values.{iface_at};

use crate::making::{core_tables, more_tables, unended_tables};
use crate::owned_tables::OwnedTables;
use crate::parts::lent_address;
use crate::statuses::{BAD_LINE, BAD_TABLE, NO_MEMORY, NOT_FOUND, OK};
use crate::tables_handle::TablesHandle;
use crate::values::start_of;
use std::alloc::Global;
use wl_sigs::TableFault;
use wl_wire::Iface;

/// Makes the core tables, and writes their address to `tables`.
#[unsafe(no_mangle)]
pub extern "C" fn waywire_c_tables_core(alloc: Global, tables: &mut *const u8) -> u32
    ensures tried { IsTried result }
    ensures none { result ≢ 0 → tables.new ≡ tables.old }
{
    match core_tables(alloc) {
        Ok(boxed) => {
            *tables = lent_address(boxed);
            OK
        }
        Err(_) => NO_MEMORY,
    }
}

/// Frees tables that no end, no inspector and no call has any more.
#[unsafe(no_mangle)]
pub extern "C" fn waywire_c_tables_free(tables: OwnedTables) {
    drop(tables.opened());
}

/// Makes the core tables for a server whose caller ends objects, and writes their address to
/// `tables`.
#[unsafe(no_mangle)]
pub extern "C" fn waywire_c_tables_core_unended(alloc: Global, tables: &mut *const u8) -> u32
    ensures tried { IsTried result }
    ensures none { result ≢ 0 → tables.new ≡ tables.old }
{
    match unended_tables(alloc) {
        Ok(boxed) => {
            *tables = lent_address(boxed);
            OK
        }
        Err(_) => NO_MEMORY,
    }
}

/// Makes tables from these and those of a text, and writes their address to `more`. If a line of
/// the text is bad, its number is written to `line`, and the rule that it breaks to `rule`.
#[unsafe(no_mangle)]
pub extern "C" fn waywire_c_tables_read(
    alloc: Global,
    tables: TablesHandle,
    text: &[u8],
    more: &mut *const u8,
    line: &mut usize,
    rule: &mut u32,
) -> u32
    ensures answer { (result ≡ table_outcome (outcome tables.held.tables text.now))
        ⊎ (result ≡ 11) }
    ensures bad_line { result ≡ 71
        → outcome tables.held.tables text.now ≡ Err (bad_line line.new) }
    ensures bad_table { result ≡ 72
        → outcome tables.held.tables text.now ≡ Err (bad_table line.new rule.new) }
    ensures line { result ≢ 71 → result ≢ 72 → line.new ≡ line.old }
    ensures rule { result ≢ 72 → rule.new ≡ rule.old }
    ensures none { result ≢ 0 → more.new ≡ more.old }
{
    match more_tables(alloc, tables.lent(), text) {
        Ok(boxed) => {
            *more = lent_address(boxed);
            OK
        }
        Err(why) => put_fault(why, line, rule),
    }
}

/// Writes where a text is at fault to `line` and `rule`, and returns the status.
pub fn put_fault(why: TableFault, line: &mut usize, rule: &mut u32) -> u32
    ensures status { result ≡ table_status why }
    ensures bad_line { result ≡ 71 → why ≡ bad_line line.new }
    ensures bad_table { result ≡ 72 → why ≡ bad_table line.new rule.new }
    ensures line { result ≢ 71 → result ≢ 72 → line.new ≡ line.old }
    ensures rule { result ≢ 72 → rule.new ≡ rule.old }
{
    match why {
        TableFault::BadLine { line: bad } => {
            *line = bad;
            BAD_LINE
        }
        TableFault::BadTable {
            line: broken,
            rule: least,
        } => {
            *line = broken;
            *rule = u32::from(least);
            BAD_TABLE
        }
        TableFault::Memory => NO_MEMORY,
    }
}

/// Writes the index of the interface of this name to `interface`.
#[unsafe(no_mangle)]
pub extern "C" fn waywire_c_tables_interface(
    tables: TablesHandle,
    name: &[u8],
    interface: &mut u16,
) -> u32
    ensures answer { result ≡ find_outcome (place_of tables.held.tables name.now) }
    ensures found { MatchOption (place_of tables.held.tables name.now)
        (interface.new ≡ interface.old) (λ iface. iface ≡ iface_at interface.new) }
{
    match tables.lent().interface(name) {
        Some(iface) => {
            *interface = iface.0;
            OK
        }
        None => NOT_FOUND,
    }
}

/// Writes to `name` where the name of the interface at an index begins, and its length to `length`.
#[unsafe(no_mangle)]
pub extern "C" fn waywire_c_tables_name(
    tables: TablesHandle,
    interface: u16,
    name: &mut *const u8,
    length: &mut usize,
) -> u32
    ensures answer { result ≡ find_outcome (interface_at tables.held.tables interface) }
    ensures length { MatchOption (interface_at tables.held.tables interface)
        ((length.new ≡ length.old) × (name.new ≡ name.old)) (λ i. length.new ≡ len i.name) }
{
    match tables.lent().name(Iface(interface)) {
        Some(text) => {
            *name = start_of(text);
            *length = text.len();
            OK
        }
        None => NOT_FOUND,
    }
}

/// Writes the newest version of the interface at an index to `version`.
#[unsafe(no_mangle)]
pub extern "C" fn waywire_c_tables_version(
    tables: TablesHandle,
    interface: u16,
    version: &mut u32,
) -> u32
    ensures answer { result ≡ find_outcome (interface_at tables.held.tables interface) }
    ensures version { MatchOption (interface_at tables.held.tables interface)
        (version.new ≡ version.old) (λ i. version.new ≡ i.version) }
{
    match tables.lent().version(Iface(interface)) {
        Some(found) => {
            *version = found;
            OK
        }
        None => NOT_FOUND,
    }
}
