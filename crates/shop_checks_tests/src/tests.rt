use crate::lengths::Lengths;
use crate::visits::{Visitor, serve_by_all, visit};
use lists::Listed;
use outside::MemTree;
use shop::{Pass, Shop};
use shop_checks::{Checked, ReloadFault};
use std::alloc::{AllocError, Global};
use std::test::Fail;

// A tree with one file of so many bytes, whose calls of these numbers fail.
fn tree_of(alloc: Global, bytes: &[u8], fails: &[u64]) -> Result<MemTree, AllocError> {
    let mut tree = MemTree::new(alloc, Listed::from_slice(alloc, fails)?);
    tree.write("app/lib/a.rb", bytes)?;
    Ok(tree)
}

#[test]
fn changed_files_are_reloaded_once(rt: HostRuntime) -> Result<(), Fail> {
    let (shop, mut pass): (Shop<Lengths>, Pass<Lengths>) = Shop::new(rt.alloc())?;
    let mut tree = tree_of(rt.alloc(), b"X = 1", &[])?;
    assert!(rt;
        matches!(
            visit(&rt, rt.alloc(), &shop, &mut pass, &mut tree),
            Ok(Checked::Reloaded(1))
        )
    );
    assert!(rt;
        matches!(
            visit(&rt, rt.alloc(), &shop, &mut pass, &mut tree),
            Ok(Checked::Same)
        )
    );
    assert_eq!(rt; pass.generation(), 1);
    tree.write("app/lib/a.rb", b"X = 12")?;
    assert!(rt;
        matches!(
            visit(&rt, rt.alloc(), &shop, &mut pass, &mut tree),
            Ok(Checked::Reloaded(2))
        )
    );
    assert_eq!(rt; pass.generation(), 2);
    Ok(())
}

#[test]
fn each_refusal_leaves_the_generation_in_force(rt: HostRuntime) -> Result<(), Fail> {
    let (shop, mut pass): (Shop<Lengths>, Pass<Lengths>) = Shop::new(rt.alloc())?;
    // The first look, the second one and the reading of the files fail in turn.
    let mut tree = tree_of(rt.alloc(), b"X = 1", &[1, 3, 6])?;
    assert!(rt;
        matches!(
            visit(&rt, rt.alloc(), &shop, &mut pass, &mut tree),
            Err(ReloadFault::Tree)
        )
    );
    assert!(rt;
        matches!(
            visit(&rt, rt.alloc(), &shop, &mut pass, &mut tree),
            Err(ReloadFault::Tree)
        )
    );
    assert!(rt;
        matches!(
            visit(&rt, rt.alloc(), &shop, &mut pass, &mut tree),
            Err(ReloadFault::Tree)
        )
    );
    tree.write("app/lib/a.rb", b"1234567890123")?;
    assert!(rt;
        matches!(
            visit(&rt, rt.alloc(), &shop, &mut pass, &mut tree),
            Err(ReloadFault::Program(13))
        )
    );
    tree.write("app/lib/a.rb", &[32; 1000])?;
    assert!(rt;
        matches!(
            visit(&rt, rt.alloc(), &shop, &mut pass, &mut tree),
            Err(ReloadFault::Program(1000))
        )
    );
    assert_eq!(rt; pass.generation(), 0);
    tree.write("app/lib/a.rb", b"X = 1")?;
    assert!(rt;
        matches!(
            visit(&rt, rt.alloc(), &shop, &mut pass, &mut tree),
            Ok(Checked::Reloaded(1))
        )
    );
    Ok(())
}

#[test]
fn two_passes_in_two_threads_reload_once(rt: HostRuntime) -> Result<(), Fail> {
    let (shop, mut first): (Shop<Lengths>, Pass<Lengths>) = Shop::new(rt.alloc())?;
    let second = shop.split(&mut first)?;
    let mut visitors = Vec::new(rt.alloc());
    visitors.push(Visitor {
        pass: first,
        tree: tree_of(rt.alloc(), b"X = 1", &[])?,
        receipt: None,
    })?;
    visitors.push(Visitor {
        pass: second,
        tree: tree_of(rt.alloc(), b"X = 1", &[])?,
        receipt: None,
    })?;
    let visitors = serve_by_all(&rt, rt.alloc(), &shop, visitors)?;
    for visitor in visitors.iter() {
        match visitor.receipt {
            Some(receipt) => {
                assert_eq!(rt; receipt.number, 1);
                assert_eq!(rt; receipt.generation, 1);
            }
            None => panic!(rt; "a request has no receipt"),
        }
    }
    Ok(())
}
