ghost use Rattle.std.specs.Prelude.{◌≤◌};

use super::*;
use std::alloc::Global;
use std::process::Abort;
use std::test::Fail;

/// The registry of one item, for any seed.
const ONE_REGISTRY: &[u8] = b"\
<registry>\n\
<types>\n\
<type name=\"int\"/>\n\
<type category=\"struct\" name=\"VkGen1\"><member><type>int</type> <name>a</name></member></type>\n\
</types>\n\
<feature api=\"vulkan\" name=\"VK_VERSION_1_0\" number=\"1.0\"></feature>\n\
<extensions>\n\
<extension name=\"VK_GEN_e1\" number=\"1\" supported=\"vulkan\" depends=\"VK_VERSION_1_0\"><require><type name=\"VkGen1\"/></require></extension>\n\
</extensions>\n\
</registry>\n";

/// Its chapter.
const ONE_CHAPTER: &[u8] = b"\
ifdef::VK_GEN_e1[]\n\
[[gen-1]]\n\
include::{generated}/api/structs/VkGen1.adoc[]\n\
endif::VK_GEN_e1[]\n\
ifdef::VK_GEN_e1[]\n\
[[alt-1]]\n\
endif::VK_GEN_e1[]\n\
ifndef::VK_GEN_e1[]\n\
[[alt-1]]\n\
endif::VK_GEN_e1[]\n\
See <<alt-1>>.\n";

/// The registry of seed 7 and size 3.
const THREE_REGISTRY: &[u8] = b"\
<registry>\n\
<types>\n\
<type name=\"int\"/>\n\
<type category=\"struct\" name=\"VkGen1\"><member><type>int</type> <name>a</name></member></type>\n\
<type category=\"struct\" name=\"VkGen2\"><member><type>int</type> <name>a</name></member><member>const <type>VkGen1</type>* <name>b</name></member></type>\n\
<type category=\"struct\" name=\"VkGen3\"><member><type>int</type> <name>a</name></member><member>const <type>VkGen2</type>* <name>b</name></member></type>\n\
</types>\n\
<feature api=\"vulkan\" name=\"VK_VERSION_1_0\" number=\"1.0\"></feature>\n\
<extensions>\n\
<extension name=\"VK_GEN_e1\" number=\"1\" supported=\"vulkan\" depends=\"VK_VERSION_1_0\"><require><type name=\"VkGen1\"/></require></extension>\n\
<extension name=\"VK_GEN_e2\" number=\"2\" supported=\"vulkan\" depends=\"VK_GEN_e1\"><require><type name=\"VkGen2\"/></require></extension>\n\
<extension name=\"VK_GEN_e3\" number=\"3\" supported=\"vulkan\" depends=\"VK_GEN_e2,VK_GEN_e2\"><require><type name=\"VkGen3\"/></require></extension>\n\
</extensions>\n\
</registry>\n";

/// Its chapter.
const THREE_CHAPTER: &[u8] = b"\
ifdef::VK_GEN_e1[]\n\
[[gen-1]]\n\
include::{generated}/api/structs/VkGen1.adoc[]\n\
endif::VK_GEN_e1[]\n\
ifdef::VK_GEN_e1[]\n\
[[alt-1]]\n\
endif::VK_GEN_e1[]\n\
ifndef::VK_GEN_e1[]\n\
[[alt-1]]\n\
endif::VK_GEN_e1[]\n\
See <<alt-1>>.\n\
ifdef::VK_GEN_e2[]\n\
[[gen-2]]\n\
include::{generated}/api/structs/VkGen2.adoc[]\n\
See <<gen-1>> and slink:VkGen1.\n\
endif::VK_GEN_e2[]\n\
ifdef::VK_GEN_e2[]\n\
[[alt-2]]\n\
endif::VK_GEN_e2[]\n\
ifndef::VK_GEN_e2[]\n\
[[alt-2]]\n\
endif::VK_GEN_e2[]\n\
See <<alt-2>>.\n\
ifdef::VK_GEN_e3[]\n\
[[gen-3]]\n\
include::{generated}/api/structs/VkGen3.adoc[]\n\
ifdef::VK_GEN_e2[]\n\
See <<gen-2>> and slink:VkGen2.\n\
endif::VK_GEN_e2[]\n\
endif::VK_GEN_e3[]\n\
ifdef::VK_GEN_e3[]\n\
[[alt-3]]\n\
endif::VK_GEN_e3[]\n\
ifndef::VK_GEN_e3[]\n\
[[alt-3]]\n\
endif::VK_GEN_e3[]\n\
See <<alt-3>>.\n";

fn is_whole(
    rt: &impl Abort,
    alloc: Global,
    seed: u64,
    size: u32,
    registry: &[u8],
    chapter: &[u8],
) -> Result<(), Fail>
    requires least { 1 ≤ size }
    requires most { size ≤ 2000 }
{
    let made = sample(alloc, seed, size)?;
    assert_eq!(rt; made.registry.as_slice(), registry);
    assert_eq!(rt; made.chapter.as_slice(), chapter);
    Ok(())
}

#[test]
fn small_samples_are_these(rt: HostRuntime) -> Result<(), Fail> {
    let alloc = rt.alloc();
    is_whole(&rt, alloc, 1, 1, ONE_REGISTRY, ONE_CHAPTER)?;
    is_whole(&rt, alloc, u64::MAX, 1, ONE_REGISTRY, ONE_CHAPTER)?;
    is_whole(&rt, alloc, 7, 3, THREE_REGISTRY, THREE_CHAPTER)
}

/// A number for a text: its length, and its bytes as digits of base 31, what is above 64 bits left out.
fn digest(text: &[u8]) -> (usize, u64) {
    let mut number: u64 = 0;
    for byte in text {
        number = number.wrapping_mul(31).wrapping_add(u64::from(*byte));
    }
    (text.len(), number)
}

fn is_told(
    rt: &impl Abort,
    alloc: Global,
    seed: u64,
    size: u32,
    registry: (usize, u64),
    chapter: (usize, u64),
) -> Result<(), Fail>
    requires least { 1 ≤ size }
    requires most { size ≤ 2000 }
{
    let made = sample(alloc, seed, size)?;
    assert_eq!(rt; digest(made.registry.as_slice()), registry);
    assert_eq!(rt; digest(made.chapter.as_slice()), chapter);
    Ok(())
}

#[test]
fn seeds_and_sizes_are_told_by_numbers(rt: HostRuntime) -> Result<(), Fail> {
    let alloc = rt.alloc();
    is_told(
        &rt,
        alloc,
        7,
        9,
        (2678, 9192185799913444941),
        (2233, 13588132384415682621),
    )?;
    is_told(
        &rt,
        alloc,
        u64::MAX,
        30,
        (8799, 8536735476313699157),
        (7779, 1081843242586534819),
    )?;
    is_told(
        &rt,
        alloc,
        9223372036854775808,
        2,
        (667, 1948956217610548110),
        (446, 5288753808780180508),
    )?;
    is_told(
        &rt,
        alloc,
        12345678901234567890,
        60,
        (17563, 6739024542062981487),
        (15717, 17321916369361922973),
    )
}

#[test]
fn large_samples_are_told_by_numbers(rt: HostRuntime) -> Result<(), Fail> {
    let alloc = rt.alloc();
    is_told(
        &rt,
        alloc,
        7,
        300,
        (88790, 7676797344606984615),
        (81836, 18121709771839636094),
    )?;
    is_told(
        &rt,
        alloc,
        0,
        2000,
        (601371, 1565742182099403627),
        (567423, 10881853585877108577),
    )
}
