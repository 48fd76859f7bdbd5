//! How an address is taken that a user gives or a log has: as it is, or lower than it is.

ghost use Rattle.std.specs.Prelude.{◌≡◌};
ghost use Rattle.listing.specs.AddressRules.{before_of, is_taken_as_caller, lower_by};
ghost use Rattle.listing.specs.AddressRules.{place_of, rule_at};

/// How the addresses are taken that are looked up.
#[derive(Clone, Copy, Debug, Drop)]
pub struct AddressRule {
    /// Whether they are return addresses. Such a one lies after the call that it belongs to, which
    /// may be the last instruction of its symbol; so the address one byte lower is looked up, and
    /// the answer has the offset of the return address itself.
    pub callers: bool,
    /// How many bytes lower the listings have what lies at an address.
    pub offset: u64,
}

impl AddressRule {
    /// Addresses are looked up as they are given.
    pub const AS_GIVEN: AddressRule = AddressRule {
        callers: false,
        offset: 0,
    };

    /// The address that is looked up for one that is given. There is none below 0.
    pub fn place_of(self, addr: u64) -> Option<u64>
        ensures { result ≡ place_of self addr }
    {
        lower_by(lower_by(addr, self.offset)?, self.before())
    }

    /// How many bytes the looked up address lies before the one that is answered about.
    pub fn before(self) -> u64
        ensures { result ≡ before_of self }
    {
        u64::from(self.callers)
    }
}

/// Which addresses of a log are taken as return addresses.
#[derive(Clone, Copy, Debug, Drop)]
pub enum Callers {
    /// Those whose place in their line says that they are.
    ByPlace,
    /// Every one.
    Every,
    /// None.
    Never,
}

/// How the addresses of a log are taken.
#[derive(Clone, Copy, Debug, Drop)]
pub struct LogRule {
    /// Which are return addresses.
    pub callers: Callers,
    /// How many bytes lower the listings have what lies at an address.
    pub offset: u64,
}

impl LogRule {
    /// The rule for an address whose place in its line says that it is a return address, or does
    /// not.
    pub fn rule_at(self, says_so: bool) -> AddressRule
        ensures { result ≡ rule_at self says_so }
    {
        AddressRule {
            callers: is_taken_as_caller(self.callers, says_so),
            offset: self.offset,
        }
    }
}

/// Whether such an address is taken as a return address.
fn is_taken_as_caller(callers: Callers, says_so: bool) -> bool
    ensures { result ≡ is_taken_as_caller callers says_so }
{
    match callers {
        Callers::ByPlace => says_so,
        Callers::Every => true,
        Callers::Never => false,
    }
}

/// The address that lies `bytes` below `addr`, if there is one.
fn lower_by(addr: u64, bytes: u64) -> Option<u64>
    ensures { result ≡ lower_by bytes addr }
{
    addr.checked_sub(bytes)
}
