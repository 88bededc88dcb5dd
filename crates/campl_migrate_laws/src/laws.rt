//! The laws of migration.
ghost use Rattle.std.specs.Prelude.{◌≡◌, ℕ, List, Ok, chars};
ghost use Rattle.std.specs.Str.{IsUtf8};
ghost use Rattle.campl_tree.specs.declared.service.ServiceName.{ServiceName};
ghost use Rattle.campl_service.specs.Reading.{scripts_of};
ghost use Rattle.campl_service.specs.Migration.{migrated, migration};
ghost use Rattle.campl_migrate_laws.specs.Kept.{SameScripts, moved_by};

/// For every heading the migrated script has the scripts that the script has, or both name a channel that the heading doesn't
/// have, in the same line; a script of version 1 has its lines one line later then.
pub fn law_says_the_same()
    ensures { (names : List ServiceName) (script result : List ℕ) → IsUtf8 result → migration (migrated (chars script)) ≡ Ok result → SameScripts (moved_by (chars script)) (scripts_of names (chars script)) (scripts_of names (chars result)) }
{}

/// A migrated script is migrated to itself.
pub fn law_stays_as_it_is()
    ensures { (script result : List ℕ) → IsUtf8 result → migration (migrated (chars script)) ≡ Ok result → migration (migrated (chars result)) ≡ Ok result }
{}
