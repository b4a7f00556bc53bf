//! The state of one local during the traversal that finds its change for a diagnostic.
use crate::cause::Cause;

/// The state of the local, and the change that brought it into this state.
#[derive(Clone, Copy)]
pub(crate) enum Known {
    /// The program point is unreachable.
    Unreached,
    Full,
    Locked(Cause),
    /// The local is empty: it never had a value, or this change emptied it.
    Vacant(Option<Cause>),
}

/// Says that the traversal has reached the position of the fault, and holds the change to report, if any.
pub(crate) struct Found(pub(crate) Option<Cause>);

impl Known {
    /// Returns the local's state at the join of two branches: the lower of the two states.
    pub(crate) fn meet(self, other: Known) -> Known {
        match (self, other) {
            (Known::Unreached, _) => other,
            (_, Known::Unreached) | (Known::Vacant(_), _) => self,
            (_, Known::Vacant(_)) => other,
            (Known::Locked(_), _) => self,
            _ => other,
        }
    }

    pub(crate) fn is_emptier(self, head: Known) -> bool {
        match (self, head) {
            (Known::Vacant(_), Known::Full | Known::Locked(_)) => true,
            (Known::Locked(_), Known::Full) => true,
            _ => false,
        }
    }

    pub(crate) fn cause(self) -> Option<Cause> {
        match self {
            Known::Vacant(cause) => cause,
            Known::Locked(cause) => Some(cause),
            Known::Unreached | Known::Full => None,
        }
    }

    /// Sets the local's state, unless the program point is unreachable.
    pub(crate) fn set(self, known: Known) -> Known {
        match self {
            Known::Unreached => Known::Unreached,
            _ => known,
        }
    }

    /// Returns the local's state after a block: full if the block had locked the local (lent it until the
    /// block's end), otherwise unchanged.
    pub(crate) fn unlocked(self, is_locked: bool) -> Known {
        if is_locked {
            self.set(Known::Full)
        } else {
            self
        }
    }
}
