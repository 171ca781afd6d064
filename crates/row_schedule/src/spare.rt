// Lists for a schedule that may follow another one.
ghost use Rattle.std.specs.Prelude.{◌≡◌, ◌≤◌, length, vec_capacity, IfOk};

use crate::stores::Sizes;
use psr_base::Memory;
use std::alloc::Global;
use std::marker::Model;

/// The lists of a schedule that may follow another one. Their memory is taken, but not touched until they are filled.
#[derive(Drop)]
pub struct SpareStores {
    pub(crate) sizes: Sizes,
    pub(crate) narrow: Vec<u16>,
    pub(crate) wide: Vec<u32>,
    pub(crate) kept_narrow: Vec<u16>,
    pub(crate) kept_wide: Vec<u32>,
}

impl Model for SpareStores {
    ghost use Rattle.std.specs.Prelude.{vec_capacity};
    ghost use Rattle.row_schedule.specs.declared.stores.Sizes.{Sizes};
    ghost use Rattle.row_schedule.specs.Sizes.{AreReserved};

    ghost Value = { Sizes };

    ghost view = { λ s. s.sizes };

    ghost invariant = { λ s. AreReserved s.sizes (vec_capacity s.narrow) (vec_capacity s.wide)
        (vec_capacity s.kept_narrow) (vec_capacity s.kept_wide) };
}

impl SpareStores {
    /// Takes the memory for lists of these sizes.
    pub fn of(alloc: Global, sizes: Sizes) -> Result<SpareStores, Memory>
        ensures { IfOk result (λ spare. spare ≡ sizes) }
    {
        Ok(SpareStores {
            sizes,
            narrow: Vec::with_capacity(alloc, sizes.narrow)?,
            wide: Vec::with_capacity(alloc, sizes.wide)?,
            kept_narrow: Vec::with_capacity(alloc, sizes.kept_narrow)?,
            kept_wide: Vec::with_capacity(alloc, sizes.kept_wide)?,
        })
    }
}

/// Appends `value` to a list until it has `size` values. The list has memory for them.
pub fn fill_up<T: Copy>(list: &mut Vec<T>, size: usize, value: T)
    requires { size ≤ vec_capacity list.old }
    ensures { size ≤ length list.new.items }
{
    for _long in list.len()..size {
        list.push_reserved(value);
    }
}
