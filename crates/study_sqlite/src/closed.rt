//! What closing a file of looks gives back.
use sqlite::Files;
use sqlite_disk::Disk;

/// What closing a file of looks gives back.
#[derive(Drop)]
pub enum Closed<D: Disk> {
    /// The file was never opened.
    Unopened,
    /// The log and the database file. Both are closed when they are dropped.
    Files(Files<D>),
}
