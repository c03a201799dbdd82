ghost use Rattle.std.specs.Prelude.{◌≡◌};
ghost use Rattle.envy_tpca.specs.Load.{drawn as transfer_of, IsLoad};

use crate::Transfer;

/// The size of the range that a delta is drawn from.
const DELTAS: u64 = 1_999_999;

/// The transfer of three words.
pub fn drawn(branches: u32, accounts: u32, x: u64, y: u64, z: u64) -> Transfer
    requires { IsLoad branches accounts }
    ensures { result ≡ transfer_of branches accounts x y z }
{
    let teller = (x % (10 * u64::from(branches))) as u32;
    let account = (y % (u64::from(branches) * u64::from(accounts))) as u32;
    Transfer {
        account,
        teller,
        branch: teller / 10,
        delta: (z % DELTAS) as i64 - 999_999,
    }
}
