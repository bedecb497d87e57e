// Values by name.
ghost use Rattle.std.specs.Prelude.{◌≡◌, OnOk, option_copied};
ghost use Rattle.std.specs.FinMap as map;

use sg_device::NoMemory;
use std::alloc::Global;
use std::collections::BTreeMap;
use std::marker::Model;

/// Values by name, which are found in time in proportion to the logarithm of their number.
#[derive(Drop)]
pub struct NameMap<V> {
    entries: BTreeMap<Vec<u8>, V>,
}

impl<V> Model for NameMap<V> {
    ghost use Rattle.std.specs.Ordering.{nat_cmp};
    ghost use Rattle.std.specs.Cmp.Lexicographic.{slice_cmp};
    ghost use Rattle.std.specs.FinMap as map;
    ghost use Rattle.std.specs.Coded.{coded_ℕ, coded_list};
    ghost use Rattle.sg_block.specs.Names.{by_bytes};

    ghost Value = { map.FinMap (slice_cmp nat_cmp) V };

    ghost coded = { map.code (coded_list coded_ℕ) V.code };

    ghost view = { λ t. map.from_entries (by_bytes t.entries.entries) };
}

impl<V> NameMap<V> {
    pub fn new(alloc: Global) -> Self
        ensures { result ≡ map.empty }
    {
        NameMap {
            entries: BTreeMap::new(alloc),
        }
    }

    pub fn get(&self, name: &[u8]) -> Option<&V>
        ensures { option_copied result ≡ map.get self.now name.now }
    {
        self.entries.get(name)
    }

    pub fn has(&self, name: &[u8]) -> bool
        ensures { result ≡ map.contains_key self.now name.now }
    {
        self.get(name).is_some()
    }

    /// Sets the value of a name.
    pub fn insert(&mut self, name: Vec<u8>, value: V) -> Result<(), NoMemory>
    where
        V: Drop,
        ensures { OnOk result (self.new ≡ map.insert self.old name.items value) }
    {
        self.entries.insert(name, value)?;
        Ok(())
    }
}
