ghost use Rattle.std.specs.Prelude.{◌≡◌};
ghost use Rattle.bisync_filter.specs.Passing.{rules_pass};

use bisync_filter::Rules;
use bisync_glob::{Room, Subject};
use bisync_text::Path;

/// Rules with the room to test paths by them, one after the other. It takes no memory.
#[derive(Drop)]
pub struct PathFilter<'a> {
    pub rules: &'a Rules,
    subject: Subject,
    room: Room,
}

impl<'a> PathFilter<'a> {
    pub fn new(rules: &'a Rules) -> PathFilter<'a>
        ensures { result.rules.now ≡ rules.now }
    {
        PathFilter {
            rules,
            subject: Subject::new(),
            room: Room::new(),
        }
    }

    /// Whether a path passes.
    pub fn passes(&mut self, path: &Path) -> bool
        ensures test { result ≡ rules_pass self.old.rules.now path.now }
        ensures rules { self.new.rules ≡ self.old.rules }
    {
        // With no rules nothing of the path needs to be known.
        if self.rules.is_empty() {
            return true;
        }
        self.subject.set(path);
        self.rules.passes_in(&self.subject, &mut self.room)
    }
}
