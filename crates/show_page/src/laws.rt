//! The laws of pages.

ghost use Rattle.show_page.specs.Laws.{ShownBack, WithoutMarks};

/// What holds of every text in a page. It does nothing when called.
pub fn laws_of_pages()
    ensures shown_back { ShownBack }
    ensures without_marks { WithoutMarks }
{}
