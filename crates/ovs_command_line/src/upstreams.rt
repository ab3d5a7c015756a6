//! The upstreams of a relay, as they are given.

ghost use Rattle.std.specs.Prelude.{◌≡◌, true, false, map, All, Contains, IfOk, IfErr};
ghost use Rattle.std.specs.List.{AllZip};
ghost use Rattle.clap.specs.Words.{found_of, rows_of};
ghost use Rattle.ovs_command_line.specs.declared.command_option.CommandOption.TheVariants as options;
ghost use Rattle.ovs_command_line.specs.Options.{AreUpstreams, Gives, SpellsAllowed};
ghost use Rattle.ovs_address.specs.Address.{AreSame, SpellsAddress};
ghost use Rattle.ovs_command_line.specs.Values.{SpellsAddresses, parts_of};
ghost use Rattle.ovs_command_line.specs.Faults.{IsFaultOf, IsOneTooMany, IsNoAddress, IsFaultAmong, IsFaultInside};

use crate::command_fault::CommandFault;
use crate::command_option::CommandOption;
use crate::options::{goes_beyond, no_value};
use clap::ArgMatches;
use ovs_address::Address;
use std::alloc::{AllocError, Global};

// How many upstreams a relay has at most.
const MOST_UPSTREAMS: usize = 4;

// The fault of the first upstream past the limit.
fn one_too_many(alloc: Global, word: &str) -> CommandFault
    ensures value { IsOneTooMany word.now result }
{
    match String::from_str(alloc, word) {
        Ok(word) => CommandFault::OneTooMany(word),
        Err(_) => CommandFault::NoMemory,
    }
}

fn address_of(alloc: Global, word: &str, beyond_loopback: bool) -> Result<Address, CommandFault>
    ensures value { IfOk result (SpellsAddress beyond_loopback word.now) }
    ensures fault { IfErr result (IsNoAddress beyond_loopback word.now) }
{
    match Address::read(word, beyond_loopback) {
        Some(address) => Ok(address),
        None => Err(no_value(alloc, CommandOption::Upstream, word)),
    }
}

// The addresses that these parts of a word spell, in their order.
fn addresses_of(
    alloc: Global,
    parts: &[&str],
    beyond_loopback: bool,
) -> Result<Vec<Address>, CommandFault>
    ensures value { IfOk result (λ addresses. AllZip (SpellsAddress beyond_loopback) (map (λ part. part.now) parts.now) addresses.items) }
    ensures fault { IfErr result (IsFaultAmong beyond_loopback (map (λ part. part.now) parts.now)) }
{
    let mut addresses = Vec::with_capacity(alloc, parts.len())?;
    for part in parts {
        addresses.push_reserved(address_of(alloc, part, beyond_loopback)?);
    }
    Ok(addresses)
}

// The texts between the commas of a word.
fn parts_of(alloc: Global, word: &str) -> Result<Vec<&str>, AllocError>
    ensures value { IfOk result (λ parts. map (λ part. part.now) parts.items ≡ parts_of word.now) }
{
    word.split(',').collect(alloc)
}

// The addresses of one upstream, which a word spells with commas between them.
fn upstream_of(
    alloc: Global,
    word: &str,
    beyond_loopback: bool,
) -> Result<Vec<Address>, CommandFault>
    ensures value { IfOk result (λ addresses. SpellsAddresses beyond_loopback word.now addresses.items) }
    ensures fault { IfErr result (IsFaultAmong beyond_loopback (parts_of word.now)) }
{
    let parts = parts_of(alloc, word)?;
    addresses_of(alloc, parts.as_slice(), beyond_loopback)
}

// The upstreams whose addresses words spell, in their order.
fn each_upstream_of(
    alloc: Global,
    words: &[&str],
    beyond_loopback: bool,
) -> Result<Vec<Vec<Address>>, CommandFault>
    ensures value { IfOk result (λ upstreams. AllZip (λ word addresses. SpellsAddresses beyond_loopback word addresses.items) (map (λ word. word.now) words.now) upstreams.items) }
    ensures fault { IfErr result (IsFaultInside beyond_loopback (map (λ word. word.now) words.now)) }
{
    let mut upstreams = Vec::with_capacity(alloc, words.len())?;
    for word in words {
        upstreams.push_reserved(upstream_of(alloc, word, beyond_loopback)?);
    }
    Ok(upstreams)
}

// The upstreams that `relay` is given, by what clap finds of it.
fn upstreams_of(alloc: Global, found: &ArgMatches<'_>) -> Result<Vec<Vec<Address>>, CommandFault>
    ensures value { IfOk result (λ upstreams. AreUpstreams (rows_of (found_of found.now)) upstreams.items) }
    ensures fault { IfErr result (IsFaultOf options.Upstream (rows_of (found_of found.now))) }
{
    let words = found.get_strs("upstream").unwrap_or(&[]);
    if words.is_empty() {
        return Err(CommandFault::Missing(CommandOption::Upstream));
    }
    if let Some(word) = words.get(MOST_UPSTREAMS) {
        return Err(one_too_many(alloc, word));
    }
    each_upstream_of(alloc, words, goes_beyond(found))
}

// Whether an address is among others.
fn is_among(address: &Address, others: &[Address]) -> bool
    ensures among { result ≡ true → (other : _) × Contains others.now other × AreSame other address.now }
    ensures none { result ≡ false → All (λ other. ¬ (AreSame other address.now)) others.now }
{
    for other in others {
        if other.is_same(address) {
            return true;
        }
    }
    false
}

/// The upstreams that `relay` is given, by what clap finds of it, where it listens at this address, which is none of theirs.
pub(crate) fn other_upstreams_of(
    alloc: Global,
    found: &ArgMatches<'_>,
    listen: &Address,
) -> Result<Vec<Vec<Address>>, CommandFault>
    requires listens { Gives (SpellsAllowed (rows_of (found_of found.now))) options.Listen (rows_of (found_of found.now)) listen.now }
    ensures value { IfOk result (λ upstreams. AreUpstreams (rows_of (found_of found.now)) upstreams.items) }
    ensures others { IfOk result (λ upstreams. All (λ upstream. All (λ address. ¬ (AreSame address listen.now)) upstream.items) upstreams.items) }
    ensures fault { IfErr result (IsFaultOf options.Upstream (rows_of (found_of found.now))) }
{
    let upstreams = upstreams_of(alloc, found)?;
    for upstream in &upstreams {
        if is_among(listen, upstream.as_slice()) {
            return Err(CommandFault::OwnAddress(*listen));
        }
    }
    Ok(upstreams)
}
