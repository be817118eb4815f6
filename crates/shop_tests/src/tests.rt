use crate::crew::{serve_by_all, serve_one, split_many};
use crate::numbers::Numbers;
use shop::{Pass, Shop, SplitFault};
use std::test::Fail;

#[test]
fn a_request_is_begun_and_abandoned(rt: HostRuntime) -> Result<(), Fail> {
    let (shop, mut pass): (Shop<Numbers>, Pass<Numbers>) = Shop::new(rt.alloc())?;
    assert_eq!(rt; pass.number(), 0);
    assert_eq!(rt; pass.generation(), 0);
    shop.start_running(&rt, &mut pass)?;
    match shop.begin(&rt, &mut pass, 7) {
        Ok(place) => {
            assert_eq!(rt; place, 2);
            shop.abandon(&rt, &mut pass);
            shop.done_running(&rt, &mut pass);
        }
        Err(_) => panic!(rt; "no request was begun"),
    }
    Ok(())
}

#[test]
fn sixty_three_passes_are_split_off_and_none_again_after_a_join(
    rt: HostRuntime,
) -> Result<(), Fail> {
    let (shop, mut first): (Shop<Numbers>, Pass<Numbers>) = Shop::new(rt.alloc())?;
    let second = shop.split(&mut first)?;
    shop.join(&mut first, second);
    let others = split_many(rt.alloc(), &shop, &mut first, 62)?;
    assert_eq!(rt; others.len(), 62);
    assert!(rt; matches!(shop.split(&mut first), Err(SplitFault::PassesFull(64))));
    Ok(())
}

#[test]
fn sixteen_threads_serve_two_hundred_requests_each(rt: HostRuntime) -> Result<(), Fail> {
    let (shop, mut first): (Shop<Numbers>, Pass<Numbers>) = Shop::new(rt.alloc())?;
    let others = split_many(rt.alloc(), &shop, &mut first, 16)?;
    let others = serve_by_all(&rt, &shop, others, 200)?;
    assert_eq!(rt; others.len(), 16);
    serve_one(&rt, &shop, &mut first);
    shop.start_running(&rt, &mut first)?;
    // The opening, four entries for each of the 3,201 requests, and the Share stand before it.
    assert!(rt; matches!(shop.begin(&rt, &mut first, 7), Ok(12_806)));
    Ok(())
}
