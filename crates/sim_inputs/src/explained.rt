//! Why a configuration is refused: `read_config`'s answer, with the first fault of the document.

ghost use Rattle.std.specs.Prelude.{◌≡◌, ◌≤◌, true, false, List, length, All, Contains, IfOk, IfErr};
ghost use Rattle.std.specs.Prelude.{IfSome, IfNone, IsTrue, ◌↔◌, codes, string_bytes};
ghost use Rattle.numbers.specs.Sizes.{most_actors};
ghost use Rattle.toml.specs.Data.{get_member};
ghost use Rattle.toml.specs.View.{table_view};
ghost use Rattle.numbers.specs.Sizes.{are_core_sizes};
ghost use Rattle.sim_inputs.specs.Configuration.{known_keys, keys_in, AreRoles, SetsSizes, Sets};
ghost use Rattle.sim_inputs.specs.Configuration.{AreInRange, IsConfiguration, IsNumber};
ghost use Rattle.sim_inputs.specs.Explained.{name_of, default_of, least_of, greatest_of, IsFaultIn};
ghost use Rattle.sim_inputs.specs.Explained.{IsFaultOf, AreNoSettings, IsNoConfiguration};
ghost use Rattle.sim_inputs.specs.Explained.{IsReaderFault, IsActorsFault, IsUnknownFault, IsUnknown, IsUnknownIn};

mod fault;

use crate::ranges::{number_setting, value_at};
use crate::roles::{every_role, roles_of};
use crate::settings::Settings;
use arrayvec::ArrayVec;
use elf_image::RamSize;
pub use fault::{ActorsFault, ConfigFault, KNOWN_KEYS, NumberKey, ROLE_NAMES};
use numbers::sizes::MOST_ACTORS;
use smt_model::{Config, Role};
use std::alloc::Global;
use toml::value::Array;
use toml::{Table, Value};

/// Reads a configuration as `read_config` does, and answers its first fault where it is none.
pub fn read_config_or_fault(text: &[u8], alloc: Global) -> Result<Settings, ConfigFault>
    ensures ok { IfOk result (IsConfiguration text.now) }
    ensures fault { IfErr result (IsFaultOf text.now) }
    ensures refused { IfErr result (IsNoConfiguration text.now) }
{
    match toml::table_from_slice(alloc, text) {
        Ok(table) => settings_in(&table, alloc),
        Err(error) if error.is_memory() => Err(ConfigFault::Memory),
        Err(error) => Err(reader_fault(&error, alloc)),
    }
}

/// What the reader of TOML says.
fn reader_fault(error: &toml::de::Error, alloc: Global) -> ConfigFault
    ensures { IsReaderFault result }
{
    let place = match error.span() {
        Some(span) => span.start,
        None => 0,
    };
    match String::from_str(alloc, error.message()) {
        Ok(message) => ConfigFault::NoDocument { place, message },
        Err(_) => ConfigFault::Memory,
    }
}

/// The settings that a document makes, or its first fault.
fn settings_in(table: &Table, alloc: Global) -> Result<Settings, ConfigFault>
    ensures found { IfOk result (Sets (table_view table.now)) }
    ensures fault { IfErr result (IsFaultIn (table_view table.now)) }
    ensures none { IfErr result (AreNoSettings (table_view table.now)) }
{
    if let Some(key) = unknown_key(table) {
        return Err(unknown_fault(key, alloc));
    }
    let config = config_in(table, alloc)?;
    let ram = ram_in(table)?;
    let limit = number_in(table, NumberKey::Limit)?;
    let turns = number_in(table, NumberKey::Turns)?;
    Ok(Settings {
        config,
        ram,
        limit: limit as u32,
        turns,
    })
}

/// The sizes of a core that a document makes, or the first fault in them.
fn config_in(table: &Table, alloc: Global) -> Result<Config, ConfigFault>
    ensures found { IfOk result (SetsSizes (table_view table.now)) }
    ensures in_range { IfOk result
        (λ config. are_core_sizes config.harts config.extra config.queue (length config.roles.items)
        ≡ true) }
    ensures fault { IfErr result (IsFaultIn (table_view table.now)) }
    ensures none { IfErr result (AreNoSettings (table_view table.now)) }
{
    let harts = number_in(table, NumberKey::Harts)?;
    let extra = number_in(table, NumberKey::Extra)?;
    let queue = number_in(table, NumberKey::Queue)?;
    let roles = roles_in(table, alloc)?;
    Ok(Config {
        harts: harts as u8,
        extra: extra as u16,
        queue: queue as u8,
        roles,
    })
}

/// The number at a key of a document.
fn number_in(table: &Table, key: NumberKey) -> Result<u64, ConfigFault>
    ensures found { IfOk result
        (IsNumber (default_of key) (get_member (name_of key) (table_view table.now))) }
    ensures in_range { IfOk result
        (λ number. (least_of key ≤ number) × (number ≤ greatest_of key)) }
    ensures fault { IfErr result (IsFaultIn (table_view table.now)) }
    ensures none { IfErr result (AreNoSettings (table_view table.now)) }
{
    match number_setting(
        table,
        key.name(),
        key.default(),
        key.least(),
        key.greatest(),
    ) {
        Some(number) => Ok(number),
        None => Err(ConfigFault::Number(key)),
    }
}

/// The size of memory that a document sets.
fn ram_in(table: &Table) -> Result<RamSize, ConfigFault>
    ensures found { IfOk result
        (IsNumber 65536 (get_member (codes "ram") (table_view table.now))) }
    ensures fault { IfErr result (IsFaultIn (table_view table.now)) }
    ensures none { IfErr result (AreNoSettings (table_view table.now)) }
{
    let ram = number_in(table, NumberKey::Ram)?;
    match RamSize::new(ram as u32) {
        Some(ram) => Ok(ram),
        None => Err(ConfigFault::Number(NumberKey::Ram)),
    }
}

/// The roles that a document names, or one actor of each role where it says nothing of them.
fn roles_in(table: &Table, alloc: Global) -> Result<ArrayVec<Role, MOST_ACTORS>, ConfigFault>
    ensures found { IfOk result
        (λ roles. AreRoles (get_member (codes "actors") (table_view table.now)) roles.items) }
    ensures count { IfOk result
        (λ roles. (1 ≤ length roles.items) × (length roles.items ≤ most_actors)) }
    ensures fault { IfErr result (IsFaultIn (table_view table.now)) }
    ensures none { IfErr result (AreNoSettings (table_view table.now)) }
{
    let Some(value) = value_at(table, "actors") else {
        return Ok(every_role());
    };
    let Some(names) = value.as_array() else {
        return Err(ConfigFault::Actors(ActorsFault::NoList));
    };
    match roles_of(names) {
        Some(roles) => Ok(roles),
        None => Err(actors_fault(names, alloc)),
    }
}

/// What is wrong with a list of actors.
fn actors_fault(names: &Array, alloc: Global) -> ConfigFault
    ensures { IsActorsFault result }
{
    let Some(other) = names.iter().find(|name| !is_role(name)) else {
        return ConfigFault::Actors(ActorsFault::Count(names.len()));
    };
    let Some(name) = other.as_str() else {
        return ConfigFault::Actors(ActorsFault::NoText);
    };
    match String::from_str(alloc, name) {
        Ok(name) => ConfigFault::Actors(ActorsFault::NoRole(name)),
        Err(_) => ConfigFault::Memory,
    }
}

/// Whether a value is the name of a role.
fn is_role(value: &Value) -> bool {
    match value.as_str() {
        Some(name) => ROLE_NAMES.contains(&name),
        None => false,
    }
}

/// A key of a document that no configuration has.
fn unknown_key(table: &Table) -> Option<&str>
    ensures unknown { IfSome result (λ key. IsUnknownIn (table_view table.now) key.now) }
    ensures none { IfNone result (All (Contains known_keys) (keys_in (table_view table.now))) }
{
    match table.keys().find(|key| is_unknown(key.as_str())) {
        Some(key) => Some(key.as_str()),
        None => None,
    }
}

fn is_unknown(key: &str) -> bool
    ensures unknown { IsTrue result → IsUnknown key.now }
    ensures known { result ≡ false → Contains known_keys key.now }
{
    !is_known(key)
}

fn is_known(key: &str) -> bool
    ensures { IsTrue result ↔ Contains known_keys key.now }
{
    matches!(
        key,
        "harts" | "extra" | "queue" | "ram" | "limit" | "turns" | "actors"
    )
}

/// The fault of a key that no configuration has.
fn unknown_fault(key: &str, alloc: Global) -> ConfigFault
    ensures { IsUnknownFault key.now result }
{
    match String::from_str(alloc, key) {
        Ok(key) => ConfigFault::UnknownKey(key),
        Err(_) => ConfigFault::Memory,
    }
}
