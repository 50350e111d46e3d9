//! What holds of every picture. These functions do nothing; their contracts are the laws.
ghost use Rattle.run_picture.specs.Laws.{EscapesAreRead, TitlesAreLines, TitlesAreTheText, OneBoxEach};
ghost use Rattle.run_picture.specs.Laws.{OneAreaEach};
ghost use Rattle.run_picture.specs.Laws.{ClosingIsTheReturn};
ghost use Rattle.run_picture.specs.HeightLaws.{ColumnsRise, HeightsFall, CutsFall, FramesEndAtCuts};
ghost use Rattle.run_picture.specs.OpenLaws.{AreasAreFree, BoxesNest, BoxesFollow};
ghost use Rattle.run_picture.specs.LengthLaws.{EscapesAreShort, TracesArePlain, PicturesAreShort};
ghost use Rattle.run_picture.specs.SvgLaws.{EscapesAreTexts, PicturesAreDocuments};

/// Escaping gives a text of SVG, and unescaping that gives what was written.
pub fn escapes_are_read()
    ensures texts { EscapesAreTexts }
    ensures read { EscapesAreRead }
{}

/// A picture has a group for each line, and the line is its title.
///
/// So the titles are the text.
pub fn titles_are_lines()
    ensures lines { TitlesAreLines }
    ensures text { TitlesAreTheText }
{}

/// A call has one box, unless its range is empty, up to its closing line or the end.
///
/// It stands in the call's group, from the call's line on, and no other group has one.
pub fn one_box_each()
    ensures { OneBoxEach }
{}

/// A line has at most one area: what it hands over.
///
/// It is handed over to whoever acts next.
pub fn one_area_each()
    ensures { OneAreaEach }
{}

/// A call is closed by the return after lines that close all that they open.
///
/// It stays open if there is none.
pub fn closing_is_the_return()
    ensures { ClosingIsTheReturn }
{}

/// Later lines stand to the right, and higher addresses no lower.
///
/// Where frames begin or end they stand higher.
pub fn lines_and_addresses_are_seen()
    ensures columns { ColumnsRise }
    ensures heights { HeightsFall }
    ensures cuts { CutsFall }
    ensures frames { FramesEndAtCuts }
{}

/// If a text passes the audit, boxes nest or follow each other, and areas lie below open frames.
///
/// A call that is made while another is open has its box below the other's and ends before it; one that is
/// made later begins after the other's end. So no two boxes overlap.
pub fn open_calls_are_seen()
    ensures areas { AreasAreFree }
    ensures nest { BoxesNest }
    ensures follow { BoxesFollow }
{}

/// Each picture is the text of shapes and of titled groups of shapes.
pub fn pictures_are_documents()
    ensures { PicturesAreDocuments }
{}

/// A picture of at most 16,384 lines has at most 2,048 bytes, thrice the escaped text and 700 a line.
///
/// So it is of any text, a trace or not. A byte is escaped as six at most, and none of a text that passes the
/// audit has to be.
pub fn pictures_are_short()
    ensures escapes { EscapesAreShort }
    ensures traces { TracesArePlain }
    ensures pictures { PicturesAreShort }
{}
