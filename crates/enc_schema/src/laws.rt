//! What the data of this crate mean together, each as the contract of a function that does nothing.
ghost use Rattle.enc_schema.specs.Laws.{WhichTables, ColumnsName, TablesAreNamed, ColumnsAreNamed, TagsFit, RunsHaveColumns, RunsAreColumns};

/// The tables are 00 to 2C and 30 to 37, each column that names rows names those of tables that are there, and a
/// table and its columns have names just where they are there.
pub fn table_laws()
    ensures which { WhichTables }
    ensures names { ColumnsName }
    ensures tables { TablesAreNamed }
    ensures columns { ColumnsAreNamed }
{}

/// The tags of a coding's tables fit its bits.
pub fn coding_laws()
    ensures { TagsFit }
{}

/// Each child table has a column of runs in its owners' table, and the child tables of a table are
/// those of its columns of runs, in order.
pub fn child_laws()
    ensures columns { RunsHaveColumns }
    ensures runs { RunsAreColumns }
{}
