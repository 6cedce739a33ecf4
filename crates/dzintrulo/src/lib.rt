// The jobs on lent byte slices, exported to C, and the version of the interface to them.
// Computes: Jobs (resolve_job, buffers_of, check_job, look_up_job, length_job), Profile (profile_job)
#![tactic(auto)]

ghost use Rattle.std.specs.Prelude.{◌≡◌};
ghost use Rattle.rules.specs.Jobs.{check_job, look_up_job, length_job};
ghost use Rattle.job_results.specs.Answers.{packed_verdict};
ghost use Rattle.job_results.specs.Clauses.{PackedResolveIs};
ghost use Rattle.sheet_paths.specs.Answers.{packed};
ghost use Rattle.job_length.specs.Packed.{packed_length};
ghost use Rattle.rules_profile.specs.Profile.{profile_job};
ghost use Rattle.job_profile.specs.Packed.{packed_profile};

/// Resolve for C.
#[unsafe(no_mangle)]
pub extern "C" fn dz_resolve(
    document: &[u8],
    environment: &[u8],
    budget: u64,
    trail: &mut [u8],
    table: &mut [u8],
    text: &mut [u8],
) -> u64
    ensures { PackedResolveIs document.now environment.now budget
        trail.old table.old text.old trail.new table.new text.new result }
{
    let r = job_resolve::resolve(document, environment, budget, trail, table, text);
    job_results::pack_resolution(document, r)
}

/// Check for C.
#[unsafe(no_mangle)]
pub extern "C" fn dz_check(
    document: &[u8],
    environment: &[u8],
    trail: &[u8],
    table: &[u8],
    text: &[u8],
) -> u64
    ensures { result ≡ packed_verdict (check_job document.now environment.now
        trail.now table.now text.now) }
{
    let verdict = job_check::check(document, environment, trail, table, text);
    job_results::pack_verdict(document, verdict)
}

/// Look-up for C.
#[unsafe(no_mangle)]
pub extern "C" fn dz_look_up(table: &[u8], text: &[u8], path: &[u8]) -> u64
    ensures { result ≡ packed (look_up_job table.now text.now path.now) }
{
    sheet_paths::pack(job_look_up::look_up_answer(table, text, path))
}

/// A looked-up value's length for C.
#[unsafe(no_mangle)]
pub extern "C" fn dz_length(table: &[u8], text: &[u8]) -> u64
    ensures { result ≡ packed_length (length_job table.now text.now) }
{
    job_length::pack_length(job_length::length(table, text))
}

/// The profile of a table for C.
#[unsafe(no_mangle)]
pub extern "C" fn dz_profile(table: &[u8], text: &[u8]) -> u64
    ensures { result ≡ packed_profile (profile_job table.now text.now) }
{
    job_profile::pack_profile(job_profile::profile(table, text))
}

/// The version of this interface, 0.1.0, as the header has it: 10,000 * major + 100 * minor + patch.
#[unsafe(no_mangle)]
pub extern "C" fn dz_version_number() -> u32
    ensures { result ≡ 100 }
{
    100
}
