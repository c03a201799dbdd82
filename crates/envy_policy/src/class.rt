ghost use Rattle.std.specs.Prelude.{◌≡◌, ◌≢◌, IsTrue, false, Some};
ghost use Rattle.envy_policy.specs.declared.class.Class.{Class};
ghost use Rattle.envy_policy.specs.Notes.{class_by, open_for, with_open};

/// How long the last copy of a page lived: by the flushes of other pages up to its next own.
#[derive(Clone, Copy, Debug, PartialEq, Eq)]
pub enum Class {
    /// Fewer flushes than a quarter of the number of pages.
    Brief,
    /// Fewer than a half.
    Short,
    /// Fewer than the number of pages.
    Long,
    /// As many or more, or the page was never flushed.
    Lasting,
}

/// The position that takes the pages of each class.
#[derive(Clone, Copy, Debug, PartialEq, Eq)]
pub(crate) struct OpenPositions {
    brief: Option<u32>,
    short: Option<u32>,
    long: Option<u32>,
    lasting: Option<u32>,
}

impl Class {
    /// The class of a page that was flushed anew after so many flushes, where there are so many pages.
    pub(crate) fn by_life(life: u64, pages: u32) -> Class
        ensures { result ≡ class_by pages life }
    {
        let life = life as u128;
        let pages = pages as u128;
        if 4 * life < pages {
            Class::Brief
        } else if 2 * life < pages {
            Class::Short
        } else if life < pages {
            Class::Long
        } else {
            Class::Lasting
        }
    }
}

impl OpenPositions {
    /// No position is open.
    pub(crate) const NONE: OpenPositions = OpenPositions {
        brief: None,
        short: None,
        long: None,
        lasting: None,
    };

    /// The position that is open for a class.
    pub(crate) fn get(&self, class: Class) -> Option<u32>
        ensures { result ≡ open_for self.now class }
    {
        match class {
            Class::Brief => self.brief,
            Class::Short => self.short,
            Class::Long => self.long,
            Class::Lasting => self.lasting,
        }
    }

    /// These, with a position open for a class.
    pub(crate) fn with(self, class: Class, position: u32) -> OpenPositions
        ensures { result ≡ with_open class position self }
    {
        let opened = Some(position);
        match class {
            Class::Brief => OpenPositions {
                brief: opened,
                ..self
            },
            Class::Short => OpenPositions {
                short: opened,
                ..self
            },
            Class::Long => OpenPositions {
                long: opened,
                ..self
            },
            Class::Lasting => OpenPositions {
                lasting: opened,
                ..self
            },
        }
    }

    /// Whether a position is open for some class.
    pub(crate) fn contains(&self, position: u32) -> bool
        ensures opened { IsTrue result → (class : Class) × (open_for self.now class ≡ Some position) }
        ensures not { result ≡ false → (class : Class) → open_for self.now class ≢ Some position }
    {
        let opened = Some(position);
        self.brief == opened
            || self.short == opened
            || self.long == opened
            || self.lasting == opened
    }
}
