// Quotas: document 02, No. 6, those of a board that is filled in, and what is none.
ghost use Rattle.std.specs.Prelude.{◌≡◌};
ghost use Rattle.board.specs.Tests.{first_quotas, no_quota};

use limits::MOST_QUOTA;

// The quotas that a board has at first.
pub fn first_quotas() -> [u32; 8]
    ensures { result ≡ first_quotas }
{
    [MOST_QUOTA; 8]
}

// Whether a number is no quota: 0 or above 4,096.
pub fn no_quota(quota: u32) -> bool
    ensures { result ≡ no_quota quota }
{
    quota == 0 || MOST_QUOTA < quota
}
