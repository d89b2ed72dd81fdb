//! What holds of all whole block tables, each as the contract of a function that does nothing.
ghost use Rattle.dirac_block_laws.specs.Laws.{CarriedTableIsRead, OneIsCarried, ReadTableIsCarried};

use dirac_blocks::{carried_lists_are_read, read_lists_are_carried};

/// The blocks that a table is read from carry its lists.
pub fn read_tables_are_carried()
    ensures carried { ReadTableIsCarried }
{
    read_lists_are_carried();
}

/// A table is read from the blocks that carry its lists, so these carry no other one.
pub fn carried_tables_are_read()
    ensures read { CarriedTableIsRead }
    ensures one_is_carried { OneIsCarried }
{
    carried_lists_are_read();
}
