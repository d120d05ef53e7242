//! Laws about prefixes that are alike. The functions only carry them.

ghost use Rattle.std.specs.Prelude.{◌≡◌, ◌<◌, ℕ, List as ListOf, Option as OptionOf, Some};
ghost use Rattle.mw_text.specs.declared.address.Addr.{Addr as AddrOf};
ghost use Rattle.ios_ast.specs.declared.file.File.{File as FileOf};
ghost use Rattle.route_record.specs.declared.Environment.{Environment as EnvironmentOf};
ghost use Rattle.route_record.specs.declared.Failures.{Failures as FailuresOf};
ghost use Rattle.route_record.specs.declared.Tables.{Tables as TablesOf};
ghost use Rattle.net_parts.specs.Stable.{Stable};
ghost use Rattle.net_parts.specs.World.{IsEnvironment};
ghost use Rattle.alike_prefixes.specs.Moving.{IsMove, moved_environment, moved_tables};

/// A stable routing stays stable when what stands at a length, and is announced for it, is moved to a length that is
/// the same to every line of the files, and lengths to which nothing comes are emptied, where no line gives anything;
/// and an environment stays one.
pub fn moved_law()
    ensures routing { (files : ListOf FileOf) (d : AddrOf) (to from : ℕ → OptionOf ℕ) (failures : FailuresOf)
        (environment : EnvironmentOf) (tables : TablesOf) → IsMove files d to from →
        Stable files d failures environment tables →
        Stable files d failures (moved_environment to environment) (moved_tables files from tables) }
    ensures environment { (files : ListOf FileOf) (d : AddrOf) (to from : ℕ → OptionOf ℕ)
        (environment : EnvironmentOf) → IsMove files d to from → IsEnvironment files environment →
        IsEnvironment files (moved_environment to environment) }
{}
