use orc_jobs::LineList;

/// A line of a watch file: it publishes one part of the cell or both, or reads them.
#[derive(Clone, Copy, Debug, PartialEq, Eq, Drop)]
pub enum WatchLine {
    Left(u32),
    Right(u32),
    Both(u32, u32),
    See,
}

/// The lines of a watch file.
pub type WatchLines = LineList<WatchLine>;
