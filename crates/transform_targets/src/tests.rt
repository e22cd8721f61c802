use crate::{ESFeature, ESTarget, Engine, EngineTargets, FeatureTable, Version};
use js_ident::Ident;
use std::process::Abort;
use std::test::Fail;

const FAULTS: [(&str, &str); 11] = [
    ("es2016,es2017", "duplicate target: es2017"),
    ("chrome80,safari10,chrome81", "duplicate target: chrome81"),
    ("foo1", "no matching target: foo1"),
    ("Chrome80", "no matching target: Chrome80"),
    ("es2014", "no matching target: es2014"),
    ("chrome80,", "no matching target: "),
    ("chrome", "invalid version: chrome"),
    ("chrome 80", "invalid version: chrome 80"),
    ("chrome080", "invalid version: chrome080"),
    ("chrome1.2.3.4", "invalid version: chrome1.2.3.4"),
    ("chrome4294967296", "invalid version: chrome4294967296"),
];

#[test]
fn a_fault_names_the_first_word_with_one(rt: HostRuntime) -> Result<(), Fail> {
    for (text, message) in FAULTS {
        match EngineTargets::from_target(rt.alloc(), text) {
            Ok(_) => panic!(&rt; "{text} names targets"),
            Err(fault) => {
                let shown = format!(in rt.alloc(); "{fault}")?;
                assert_eq!(rt; shown.as_str(), message);
            }
        }
    }
    Ok(())
}

fn numbers(version: Option<Version>) -> Option<(u32, u32, u32)> {
    let version = version?;
    Some((version.major, version.minor, version.patch))
}

#[test]
fn words_name_versions(rt: HostRuntime) -> Result<(), Fail> {
    let targets = EngineTargets::from_target(
        rt.alloc(),
        "chrome80.1.2,\t safari10 , ie11,node0.10,esnext",
    )?;
    assert_eq!(rt; numbers(targets.chrome), Some((80, 1, 2)));
    assert_eq!(rt; numbers(targets.safari), Some((10, 0, 0)));
    assert_eq!(rt; numbers(targets.ie), Some((11, 0, 0)));
    assert_eq!(rt; numbers(targets.node), Some((0, 10, 0)));
    assert_eq!(rt; numbers(targets.es), Some((4294967295, 0, 0)));
    assert_eq!(rt; numbers(targets.edge), None);
    Ok(())
}

#[test]
fn a_list_has_one_word_in_each_text(rt: HostRuntime) -> Result<(), Fail> {
    let words = vec![in rt.alloc();
        Ident::new(rt.alloc(), "es2017")?,
        Ident::new(rt.alloc(), "chrome4294967295")?,
    ]?;
    let targets = EngineTargets::from_target_list(rt.alloc(), &words)?;
    assert_eq!(rt; numbers(targets.es), Some((2017, 0, 0)));
    assert_eq!(rt; numbers(targets.chrome), Some((4294967295, 0, 0)));
    Ok(())
}

const fn version(major: u32) -> Version {
    Version {
        major,
        minor: 0,
        patch: 0,
    }
}

#[test]
fn the_last_row_decides(rt: HostRuntime) -> Result<(), Fail> {
    let alloc = rt.alloc();
    let feature = ESFeature::ES2020OptionalChaining;
    let mut table = FeatureTable::new(alloc);
    table.set(feature, Engine::Chrome, version(80))?;
    table.set(feature, Engine::Chrome, version(91))?;
    assert_eq!(rt;
        numbers(table.get(feature, Engine::Chrome)),
        Some((91, 0, 0))
    );
    assert_eq!(rt; numbers(table.get(feature, Engine::Ie)), None);
    let mut targets = EngineTargets::new(alloc);
    assert!(rt; !targets.has_feature(feature, &table));
    targets.insert(Engine::Chrome, version(90))?;
    assert!(rt; targets.has_feature(feature, &table));
    targets.insert(Engine::Chrome, version(91))?;
    assert!(rt; !targets.has_feature(feature, &table));
    targets.insert(Engine::Es, ESTarget::ES2019.version())?;
    assert!(rt; targets.has_feature(feature, &table));
    Ok(())
}
