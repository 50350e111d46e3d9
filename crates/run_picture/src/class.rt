//! What a shape stands for.
ghost use Rattle.std.specs.Prelude.{◌≡◌};
ghost use Rattle.run_picture.specs.Class.{class_name};

/// What a shape of a picture stands for, by which the style of the picture draws it.
#[derive(Clone, Copy)]
pub enum Class {
    /// What trusted code has, or its lane.
    Trusted,
    /// What code outside has, or its lane.
    Outside,
    /// The frame of a call that returned.
    Closed,
    /// The frame of a call that was open at the end.
    Open,
    /// The edge by which a return closes a frame.
    Edge,
    /// Who acts.
    Acts,
    /// Control that crosses the border.
    Arrow,
    /// Where an address is drawn.
    Rule,
    /// The end.
    End,
    /// A text beside shapes.
    Note,
    /// A text in a frame.
    Inside,
}

impl Class {
    /// Its name in the style.
    pub(crate) fn name(self) -> &'static str
        ensures { result.now ≡ class_name self }
    {
        match self {
            Class::Trusted => "in",
            Class::Outside => "out",
            Class::Closed => "fr",
            Class::Open => "fo",
            Class::Edge => "cl",
            Class::Acts => "now",
            Class::Arrow => "a",
            Class::Rule => "dr",
            Class::End => "e",
            Class::Note => "s",
            Class::Inside => "w",
        }
    }
}
