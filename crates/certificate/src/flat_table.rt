// The flat clauses as a table of sets, for classical questions.
ghost use Rattle.std.specs.Prelude.{◌≡◌, ◌≤◌, length};
ghost use Rattle.atoms.specs.Words.{row_count};
ghost use Rattle.certificate.specs.Checked.{FlatsLoaded};

use super::sheet::Sheet;

// Both sides of the clauses. The callers' tables have a row for each clause.
pub fn load_flats(sheet: &Sheet, left: &mut [u64], right: &mut [u64])
    requires { (sheet.now.contents.flats ≤ row_count left.old) × (sheet.now.contents.flats ≤ row_count right.old) }
    ensures { FlatsLoaded sheet.now.bytes.now sheet.now.contents.flats left.old right.old left.new right.new }
{
    for i in 0..sheet.contents.flats as usize {
        let f = sheet.flat(i);
        atoms::set_row(left, i, f.left);
        atoms::set_row(right, i, f.right);
    }
}
