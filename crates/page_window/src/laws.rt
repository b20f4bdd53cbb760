//! Laws of the part of a page that meets a rectangle. These functions do nothing: their contracts are the laws.

ghost use Rattle.page_window.specs.Laws.{WindowsStay};

/// The part of a page that meets a rectangle, cut again to it, stays as it is.
pub fn windows_stay()
    ensures { WindowsStay }
{}
