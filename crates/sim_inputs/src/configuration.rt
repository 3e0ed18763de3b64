ghost use Rattle.std.specs.Prelude.{◌≡◌, ◌≤◌, ◌↔◌, true, List, length, All, Contains, IsTrue, IfOk};
ghost use Rattle.std.specs.Prelude.{IfErr, IfSome, IfNone, codes};
ghost use Rattle.numbers.specs.Sizes.{most_actors};
ghost use Rattle.toml.specs.Data.{get_member};
ghost use Rattle.toml.specs.View.{table_view};
ghost use Rattle.smt_model.specs.declared.config.Config.{Config as AnyConfig};
ghost use Rattle.events.specs.declared.role.Role.{Role as AnyRole};
ghost use Rattle.numbers.specs.Sizes.{are_core_sizes};
ghost use Rattle.sim_inputs.specs.declared.settings.Settings.{Settings as AnySettings};
ghost use Rattle.sim_inputs.specs.Configuration.{known_keys, keys_in, AreRoles, SetsSizes, Sets};
ghost use Rattle.sim_inputs.specs.Configuration.{AreInRange, IsConfiguration, IsConfigRefusedFor};

use crate::ranges::{number_setting, value_at};
use crate::roles::{every_role, roles_of};
use crate::settings::Settings;
use arrayvec::ArrayVec;
use elf_image::RamSize;
use numbers::sizes::{
    FEWEST_QUEUED, MOST_ACTORS, MOST_EVENTS, MOST_EXTRA, MOST_HARTS, MOST_QUEUED,
};
use smt_model::{Config, Role};
use std::alloc::Global;
use thiserror::Error;
use toml::Table;

/// Why a configuration was refused.
#[derive(Clone, Copy, Debug, PartialEq, Eq, Drop, Error)]
pub enum ConfigRefused {
    /// The bytes aren't a document of known keys with values that they may have.
    #[error("config refused")]
    Refused,
    #[error("memory")]
    Memory,
}

/// Reads a configuration: TOML with any of the keys `harts`, `extra`, `queue`, `ram`, `limit`,
/// `turns` and `actors`.
pub fn read_config(text: &[u8], alloc: Global) -> Result<Settings, ConfigRefused>
    ensures ok { IfOk result (IsConfiguration text.now) }
    ensures in_range { IfOk result AreInRange }
    ensures refused { IfErr result (IsConfigRefusedFor text.now) }
{
    match toml::table_from_slice(alloc, text) {
        Ok(table) => settings_in(&table).ok_or(ConfigRefused::Refused),
        Err(error) if error.is_memory() => Err(ConfigRefused::Memory),
        Err(_) => Err(ConfigRefused::Refused),
    }
}

/// The settings that a document makes, if it is a configuration.
fn settings_in(table: &Table) -> Option<Settings>
    ensures found { IfSome result (Sets (table_view table.now)) }
    ensures none { IfNone result ((settings : AnySettings)
        → Sets (table_view table.now) settings → ⊥) }
{
    if !has_known_keys(table) {
        return None;
    }
    let ram = number_setting(table, "ram", 65_536, 0, 16_777_216)?;
    let ram = RamSize::new(ram as u32)?;
    let limit = number_setting(table, "limit", 1_000_000, 0, u64::from(MOST_EVENTS))?;
    let turns = number_setting(table, "turns", 1_000_000_000, 0, 1_000_000_000_000_000_000)?;
    Some(Settings {
        config: config_in(table)?,
        ram,
        limit: limit as u32,
        turns,
    })
}

/// The sizes of a core that a document makes, if they are a core's.
fn config_in(table: &Table) -> Option<Config>
    ensures found { IfSome result (SetsSizes (table_view table.now)) }
    ensures in_range { IfSome result
        (λ config. are_core_sizes config.harts config.extra config.queue (length config.roles.items)
        ≡ true) }
    ensures none { IfNone result ((config : AnyConfig) → SetsSizes (table_view table.now) config
        → are_core_sizes config.harts config.extra config.queue (length config.roles.items) ≡ true
        → ⊥) }
{
    let harts = number_setting(table, "harts", 1, 1, u64::from(MOST_HARTS))?;
    let extra = number_setting(table, "extra", 64, 1, u64::from(MOST_EXTRA))?;
    let queue = number_setting(
        table,
        "queue",
        16,
        u64::from(FEWEST_QUEUED),
        MOST_QUEUED as u64,
    )?;
    Some(Config {
        harts: harts as u8,
        extra: extra as u16,
        queue: queue as u8,
        roles: roles_at(table)?,
    })
}

/// The roles that a document names, or one actor of each role where it says nothing of them.
fn roles_at(table: &Table) -> Option<ArrayVec<Role, MOST_ACTORS>>
    ensures found { IfSome result
        (λ roles. AreRoles (get_member (codes "actors") (table_view table.now)) roles.items) }
    ensures count { IfSome result
        (λ roles. (1 ≤ length roles.items) × (length roles.items ≤ most_actors)) }
    ensures none { IfNone result ((roles : List AnyRole)
        → AreRoles (get_member (codes "actors") (table_view table.now)) roles
        → 1 ≤ length roles → length roles ≤ most_actors → ⊥) }
{
    match value_at(table, "actors") {
        None => Some(every_role()),
        Some(value) => match value.as_array() {
            Some(names) => roles_of(names),
            None => None,
        },
    }
}

/// Whether a document has no other keys than a configuration may have.
fn has_known_keys(table: &Table) -> bool
    ensures { IsTrue result ↔ All (Contains known_keys) (keys_in (table_view table.now)) }
{
    table.keys().all(|key| is_known(key.as_str()))
}

fn is_known(key: &str) -> bool
    ensures { IsTrue result ↔ Contains known_keys key.now }
{
    matches!(
        key,
        "harts" | "extra" | "queue" | "ram" | "limit" | "turns" | "actors"
    )
}
