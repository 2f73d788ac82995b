// A domain's grant, its active set and its quota: document 01, "Board and frame table", and 02, No. 6. The
// board holds eight of each; a domain past them has none.
ghost use Rattle.std.specs.Prelude.{◌≡◌, get_or};
ghost use Rattle.board.specs.Tests.{grant, active_set, quota, empty_or_outside};

use crate::Board;

// Kept: 0 and no Option past the eighth, as `grant`, `active_set` and `quota` of the definitions have it.
fn field(fields: &[u32; 8], domain: u32) -> u32
    ensures { result ≡ get_or fields.now domain 0 }
{
    fields.get(domain as usize).copied().unwrap_or(0)
}

impl Board {
    pub fn grant(&self, domain: u32) -> u32
        ensures { result ≡ grant self.now domain }
    {
        field(&self.grants, domain)
    }

    pub fn active_set(&self, domain: u32) -> u32
        ensures { result ≡ active_set self.now domain }
    {
        field(&self.active, domain)
    }

    pub fn quota(&self, domain: u32) -> u32
        ensures { result ≡ quota self.now domain }
    {
        field(&self.quotas, domain)
    }
}

// Whether a set is 0 or has a bit outside a grant.
pub fn empty_or_outside(grant: u32, set: u32) -> bool
    ensures { result ≡ empty_or_outside grant set }
{
    set == 0 || set & grant != set
}
